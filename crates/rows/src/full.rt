// Why a row takes no interval more.
ghost use Rattle.std.specs.Prelude.{Some};
ghost use Rattle.rows.specs.Texts.{full_text};

use std::error::Error;
use std::fmt;

// 96 intervals stand already.
#[derive(Clone, Copy, PartialEq, Eq, Debug)]
pub struct RowFull;

// By hand: of a derived text no contract speaks.
impl fmt::Display for RowFull {
    ghost output = { λ _. Some full_text };

    fn fmt<W: fmt::Write>(&self, f: &mut fmt::Formatter<W>) -> fmt::Result {
        f.write_str("the process has 96 intervals")
    }
}

impl Error for RowFull {}
