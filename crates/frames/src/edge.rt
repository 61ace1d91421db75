// The bytes of one frame, written out.
ghost use Rattle.std.specs.Prelude.{◌≡◌};
ghost use Rattle.frames.specs.Reads.{LineBytes, first_line};
ghost use Rattle.frames.specs.Frames.{framed};

// The frame of the recovery line of 1 and then zeros.
pub fn line_bytes() -> [u8; 13]
    ensures edge { LineBytes }
    ensures value { result ≡ framed first_line }
{
    [0x0B, 0, 3, 0, 1, 0, 0, 0, 0, 0, 0, 0, 0x5A]
}
