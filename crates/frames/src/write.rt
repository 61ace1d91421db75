// The frame of a record, written into lent bytes.
ghost use Rattle.std.specs.Prelude.{◌≡◌, ◌+◌, ◌^◌, ◌<◌, ◌≤◌, [], ◌∷◌, ◌++◌, length, MatchOption};
ghost use Rattle.frames.specs.Frames.{Wrote, short, word, sent, sends_part, output_part, long, kind, fields, framed, size, Held, Words, Word, Typed};
ghost use Rattle.frames.specs.Inside.{Puts};
ghost use Rattle.records.specs.declared.Content.TheVariants.{Interval as interval, Checkpoint as checkpoint};

use programs::values::{Send, Sends};
use records::{Checkpoint, Content, Interval, Record};

const CLOSING: u8 = 0x5A;

// The bytes of the largest frame, an interval's.
pub const LARGEST: usize = 53;

// The length of a frame of each kind, which counts what follows it.
pub(crate) const INTERVAL_LONG: u8 = 51;

pub(crate) const CHECKPOINT_LONG: u8 = 37;

pub(crate) const LINE_LONG: u8 = 11;

// These and the kinds below are the format's numbers; a case carries its fields, and so cannot be its own number.
fn long(content: &Content) -> u8
    ensures { result ≡ long content.now }
{
    match content {
        Content::Interval(_) => INTERVAL_LONG,
        Content::Checkpoint(_) => CHECKPOINT_LONG,
        Content::Line(_) => LINE_LONG,
    }
}

fn kind(content: &Content) -> u16
    ensures { result ≡ kind content.now }
{
    match content {
        Content::Interval(_) => 1,
        Content::Checkpoint(_) => 2,
        Content::Line(_) => 3,
    }
}

// How many bytes the frame of `record` has.
pub fn frame_size(record: &Record) -> usize
    ensures { result ≡ size «record».now }
{
    2 + usize::from(long(&record.content))
}

// The fields of an interval that are a byte each.
fn interval_bytes(x: &Interval) -> [u8; 4]
    ensures { result ≡ x.now.process ∷ x.now.index ∷ x.now.source ∷ x.now.sent_at ∷ [] }
{
    [x.process, x.index, x.source, x.sent_at]
}

// The fields of a checkpoint that are a byte each.
fn checkpoint_bytes(x: &Checkpoint) -> [u8; 2]
    ensures { result ≡ x.now.process ∷ x.now.index ∷ [] }
{
    [x.process, x.index]
}

// Writes the frame of `record` at `at`, and answers the place behind it. Where it does not fit,
// nothing is written. It is inlined with the pen's ways through a record, its interval and its
// checkpoint, so that a caller that knows the kind of its record writes that kind alone, and the
// pen's place is no memory: without that an append of an interval takes twice as long.
#[inline(always)]
pub fn write_frame(out: &mut [u8], at: usize, record: &Record) -> Option<usize>
    ensures { MatchOption result ((length out.old < at + size «record».now) × (out.new ≡ out.old)) (λ end. Typed «record».now × Wrote out.old at (framed «record».now) out.new end) }
{
    if at > out.len() || out.len() - at < frame_size(record) {
        return None;
    }
    let mut pen = Pen { out, at };
    pen.put_frame(record);
    Some(pen.at)
}

// Lent bytes, and the place at which the next ones are put. No fact stands in the type: each part asks for its own length ahead.
#[derive(Drop)]
struct Pen<'a> {
    out: &'a mut [u8],
    at: usize,
}

impl Pen<'_> {
    #[tactic(auto, using(std::proofs::lemmas::Slice::overwrites))]
    fn put(&mut self, part: &[u8])
        requires { self.old.at + length part.now ≤ length self.old.out.now }
        ensures { Puts self.old part.now self.new }
    {
        let end = self.at + part.len();
        self.out[self.at..end].copy_from_slice(part);
        self.at = end;
    }

    fn put_word(&mut self, value: u64)
        requires { self.old.at + 8 ≤ length self.old.out.now }
        ensures typed { value < 2 ^ 64 }
        ensures puts { Puts self.old (word value) self.new }
    {
        self.put(&value.to_le_bytes());
    }

    fn put_send(&mut self, m: Send)
        requires { self.old.at + 9 ≤ length self.old.out.now }
        ensures typed { m.value < 2 ^ 64 }
        ensures puts { Puts self.old (sent m) self.new }
    {
        self.put(&[m.target]);
        self.put_word(m.value);
    }

    fn put_sends(&mut self, sends: Sends)
        requires { self.old.at + 19 ≤ length self.old.out.now }
        ensures typed { Words sends }
        ensures puts { Puts self.old (sends_part sends) self.new }
    {
        match sends {
            // the count and, below, the flag are numbers of the format
            Sends::Nothing => self.put(&[0; 19]),
            Sends::One(m) => {
                self.put(&[1]);
                self.put_send(m);
                self.put(&[0; 9]);
            }
            Sends::Two(m, n) => {
                self.put(&[2]);
                self.put_send(m);
                self.put_send(n);
            }
        }
    }

    fn put_output(&mut self, output: Option<u64>)
        requires { self.old.at + 9 ≤ length self.old.out.now }
        ensures typed { Word output }
        ensures puts { Puts self.old (output_part output) self.new }
    {
        match output {
            None => self.put(&[0; 9]),
            Some(value) => {
                self.put(&[1]);
                self.put_word(value);
            }
        }
    }

    #[inline(always)]
    fn put_interval(&mut self, x: &Interval)
        requires { self.old.at + 48 ≤ length self.old.out.now }
        ensures typed { Held (interval x.now) }
        ensures puts { Puts self.old (fields (interval x.now)) self.new }
    {
        self.put(&interval_bytes(x));
        self.put_word(x.value);
        self.put_sends(x.sends);
        self.put_output(x.output);
        self.put(&x.vector);
    }

    #[inline(always)]
    fn put_checkpoint(&mut self, x: &Checkpoint)
        requires { self.old.at + 34 ≤ length self.old.out.now }
        ensures typed { Held (checkpoint x.now) }
        ensures puts { Puts self.old (fields (checkpoint x.now)) self.new }
    {
        self.put(&checkpoint_bytes(x));
        self.put_word(x.state.a);
        self.put_word(x.state.b);
        self.put_word(x.state.c);
        self.put_word(x.state.d);
    }

    #[inline(always)]
    fn put_frame(&mut self, record: &Record)
        requires { self.old.at + size «record».now ≤ length self.old.out.now }
        ensures typed { Typed «record».now }
        ensures puts { Puts self.old (framed «record».now) self.new }
    {
        self.put_head(&record.content);
        self.put_fields(&record.content);
        self.put_closing();
    }

    fn put_head(&mut self, content: &Content)
        requires { self.old.at + 4 ≤ length self.old.out.now }
        ensures { Puts self.old (short (long content.now) ++ short (kind content.now)) self.new }
    {
        self.put(&u16::from(long(content)).to_le_bytes());
        self.put(&kind(content).to_le_bytes());
    }

    fn put_closing(&mut self)
        requires { self.old.at + 1 ≤ length self.old.out.now }
        ensures { Puts self.old (0x5A ∷ []) self.new }
    {
        self.put(&[CLOSING]);
    }

    #[inline(always)]
    fn put_fields(&mut self, content: &Content)
        requires { self.old.at + long content.now ≤ length self.old.out.now + 3 }
        ensures typed { Held content.now }
        ensures puts { Puts self.old (fields content.now) self.new }
    {
        match content {
            Content::Interval(x) => self.put_interval(x),
            Content::Checkpoint(x) => self.put_checkpoint(x),
            Content::Line(entries) => self.put(entries),
        }
    }
}
