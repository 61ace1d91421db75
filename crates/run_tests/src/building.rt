// Values that the tests are made of.
use programs::orders::Order;

// The value of an order.
pub(crate) fn order(number: u32, quantity: u32) -> u64 {
    u64::from(Order { number, quantity })
}
