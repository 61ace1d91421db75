// A line of a day: `stock PIECES`, a delivery, or `order NUMBER PIECES`.
ghost use Rattle.std.specs.Prelude.{◌≡◌, ℕ, Some, MatchOption};
ghost use Rattle.programs.specs.declared.orders.Order.{Order as Parts};
ghost use Rattle.days.specs.Entry.{Number, Spells, Reads, bad_text};

use programs::orders::Order;
use std::fmt;
use std::str::FromStr;

#[derive(Clone, Copy)]
pub enum Entry {
    // this many pieces come in
    Stock(u32),
    Placed(Order),
}

// Why a line is no entry.
#[derive(Clone, Copy)]
pub enum BadLine {
    // it begins neither with `stock ` nor with `order `
    NoSuchWord,
    // what follows is not as many numbers as the word wants
    BadNumber,
}

impl BadLine {
    pub fn text(&self) -> &'static str
        ensures { result.now ≡ bad_text self.now }
    {
        match self {
            BadLine::NoSuchWord => "neither 'stock PIECES' nor 'order NUMBER PIECES'",
            BadLine::BadNumber => "not as many whole numbers below 4294967296 as wanted",
        }
    }
}

// By hand: of a derived text no contract speaks.
impl fmt::Display for BadLine {
    ghost output = { λ b. Some (bad_text b) };

    fn fmt<W: fmt::Write>(&self, f: &mut fmt::Formatter<W>) -> fmt::Result {
        f.write_str(self.text())
    }
}

fn read_number(text: &str) -> Option<u32>
    ensures { MatchOption result ((n : ℕ) → Number text.now n → ⊥) (λ n. Number text.now n) }
{
    text.parse().ok()
}

#[tactic(auto, using(crate::proofs::Splits::no_split, crate::proofs::Splits::numbers, crate::proofs::Splits::spells))]
fn read_order(text: &str) -> Option<Order>
    ensures { MatchOption result ((o : Parts) → Spells text.now o → ⊥) (λ o. Spells text.now o) }
{
    let (number, quantity) = text.split_once(' ')?;
    Some(Order {
        number: read_number(number)?,
        quantity: read_number(quantity)?,
    })
}

// What a line says.
impl FromStr for Entry {
    type Err = BadLine;

    ghost from_str_gives = { Reads };

    #[tactic(auto, using(crate::proofs::Words::no_stock, crate::proofs::Words::no_order))]
    fn from_str(line: &str) -> Result<Entry, BadLine> {
        if let Some(text) = line.strip_prefix("stock ") {
            let pieces = read_number(text).ok_or(BadLine::BadNumber)?;
            return Ok(Entry::Stock(pieces));
        }
        if let Some(text) = line.strip_prefix("order ") {
            let order = read_order(text).ok_or(BadLine::BadNumber)?;
            return Ok(Entry::Placed(order));
        }
        Err(BadLine::NoSuchWord)
    }
}
