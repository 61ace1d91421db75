// The entries of a line. Lines and counts are bare arrays, as a record holds them: a type of their own would be turned into that array at each store.
ghost use Rattle.std.specs.Prelude.{◌≡◌};
ghost use Rattle.tables.specs.Answers.{line_of};

// To which interval a line sends a process back; 0 where the line has no entry.
pub fn entry(line: &[u8; 8], process: u8) -> u8
    ensures { result ≡ line_of line.now process }
{
    line.get(process as usize).copied().unwrap_or(0)
}
