// What a revive leaves of one unsafe line.
ghost use Rattle.std.specs.Prelude.{◌≡◌, [], ◌∷◌};
ghost use Rattle.frames.specs.Reads.{first_line};
ghost use Rattle.byte_store.specs.Bytes.{LineStands};
ghost use Rattle.byte_store.specs.Journals.{standing};

// How many records stand where the line of 1 and then zeros was the only unsafe one and `j` of its
// bytes stand.
pub fn line_standing(j: u64) -> u64
    ensures edge { LineStands }
    ensures value { result ≡ standing j (first_line ∷ []) }
{
    u64::from(j >= 13)
}
