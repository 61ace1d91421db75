// The order program: intake takes orders, stock sets goods aside, dispatch prints picking notes.
ghost use Rattle.std.specs.Prelude.{◌≡◌};
ghost use Rattle.programs.specs.Orders.{orders, order_number, order_quantity, order_value, intake_order, intake_answer, stock_delivery, stock_order, dispatch_order};
ghost use Rattle.std.proofs.Common.{rules};

use crate::program::{Program, Step};
use crate::values::{OUTSIDE, Send, Sends, State};

// No enum of processes: the rules and the records number them.
pub const INTAKE: u8 = 0;

pub const STOCK: u8 = 1;

pub const DISPATCH: u8 = 2;

// How many quantities there are: an order's number counts by this in its value.
const QUANTITIES: u64 = 4_294_967_296;

// An order by its parts; a message carries both in one value.
#[derive(Clone, Copy, PartialEq, Eq, Debug)]
pub struct Order {
    pub number: u32,
    pub quantity: u32,
}

// The order that a value stands for.
impl From<u64> for Order {
    ghost from_gives = { λ value order. (order.number ≡ order_number value) × (order.quantity ≡ order_quantity value) };

    fn from(value: u64) -> Order {
        Order {
            number: (value / QUANTITIES) as u32,
            quantity: (value % QUANTITIES) as u32,
        }
    }
}

// The value that stands for an order.
impl From<Order> for u64 {
    ghost from_gives = { λ order value. value ≡ order_value order.number order.quantity };

    fn from(order: Order) -> u64 {
        u64::from(order.number) * QUANTITIES + u64::from(order.quantity)
    }
}

// The state and the value of a step stay two arguments, as the rules name them.
fn take_order(state: State, value: u64) -> Step
    ensures { result ≡ intake_order state value }
{
    let counted = State {
        a: state.a.wrapping_add(1),
        ..state
    };
    if Order::from(value).quantity == 0 {
        (counted, Sends::Nothing, Some(value))
    } else {
        (
            counted,
            Sends::One(Send {
                target: STOCK,
                value,
            }),
            None,
        )
    }
}

fn confirm(state: State, value: u64) -> Step
    ensures { result ≡ intake_answer state value }
{
    let pieces = u64::from(Order::from(value).quantity);
    let confirmed = State {
        b: state.b.saturating_add(pieces),
        ..state
    };
    (confirmed, Sends::Nothing, Some(value))
}

fn receive_goods(state: State, value: u64) -> Step
    ensures { result ≡ stock_delivery state value }
{
    let pieces = u64::from(Order::from(value).quantity);
    let filled = State {
        a: state.a.saturating_add(pieces),
        ..state
    };
    (filled, Sends::Nothing, None)
}

fn set_aside(state: State, value: u64) -> Step
    ensures { result ≡ stock_order state value }
{
    let order = Order::from(value);
    let pieces = u64::from(order.quantity);
    if pieces <= state.a {
        let left = State {
            a: state.a - pieces,
            ..state
        };
        let picking = Send {
            target: DISPATCH,
            value,
        };
        let answer = Send {
            target: INTAKE,
            value,
        };
        (left, Sends::Two(picking, answer), None)
    } else {
        let counted = State {
            b: state.b.wrapping_add(1),
            ..state
        };
        let refusal = Order {
            number: order.number,
            quantity: 0,
        };
        let answer = Send {
            target: INTAKE,
            value: u64::from(refusal),
        };
        (counted, Sends::One(answer), None)
    }
}

fn print_note(state: State, value: u64) -> Step
    ensures { result ≡ dispatch_order state value }
{
    let counted = State {
        a: state.a.wrapping_add(1),
        ..state
    };
    (counted, Sends::Nothing, Some(value))
}

#[derive(Clone, Copy)]
pub struct Orders;

impl Program for Orders {
    ghost means = { λ _. orders };

    ghost targeted = { Prim.search rules };

    fn start(&self, _process: u8) -> State {
        State::ZERO
    }

    fn step(&self, process: u8, state: State, source: u8, value: u64) -> Step {
        match (process, source) {
            (INTAKE, OUTSIDE) => take_order(state, value),
            (INTAKE, STOCK) => confirm(state, value),
            (STOCK, OUTSIDE) => receive_goods(state, value),
            (STOCK, INTAKE) => set_aside(state, value),
            (DISPATCH, STOCK) => print_note(state, value),
            _ => (state, Sends::Nothing, None),
        }
    }
}
