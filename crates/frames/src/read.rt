// A frame read back from bytes, strictly.
ghost use Rattle.std.specs.Prelude.{◌≡◌, ◌+◌, ◌≤◌, drop, slice_index};
ghost use Rattle.frames.specs.Reads.{candidate as best, decoded, Strict, word_at, entries_at, send_at, sends_at, output_at, interval_at, checkpoint_at};

use crate::write::{CHECKPOINT_LONG, INTERVAL_LONG, LARGEST, write_frame};
use programs::values::{Send, Sends, State};
use records::{Checkpoint, Content, Interval, Record};
use std::array;

// The record whose frame stands at `at`, if one does. It is read only where its own frame stands
// byte for byte, so a wrong length, kind or closing byte, a send count above 2, a flag above 1 or an
// absent field that is not zero is never read.
pub fn read_frame(bytes: &[u8], at: usize) -> Option<Record>
    ensures value { result ≡ decoded (drop at bytes.now) }
    ensures strict { Strict (drop at bytes.now) result }
{
    let rest = bytes.get(at..)?;
    let record = candidate(rest);
    let mut again = [0; LARGEST];
    let size = write_frame(&mut again, 0, &record)?;
    // by an `if`: `then_some` would copy the record before the test
    if rest.starts_with(&again[..size]) {
        Some(record)
    } else {
        None
    }
}

// The places are those of the frame, written out: a struct of bytes and place would have to move between them and shows them no plainer.
fn candidate(bytes: &[u8]) -> Record
    ensures { result ≡ best bytes.now }
{
    let content = match byte(bytes, 0) {
        INTERVAL_LONG => interval(bytes),
        CHECKPOINT_LONG => checkpoint(bytes),
        _ => Content::Line(entries(bytes, 4)),
    };
    Record { content }
}

fn interval(bytes: &[u8]) -> Content
    ensures { result ≡ interval_at bytes.now }
{
    Content::Interval(Interval {
        process: byte(bytes, 4),
        index: byte(bytes, 5),
        source: byte(bytes, 6),
        sent_at: byte(bytes, 7),
        value: word(bytes, 8),
        sends: sends(bytes),
        output: output(bytes),
        vector: entries(bytes, 44),
    })
}

fn checkpoint(bytes: &[u8]) -> Content
    ensures { result ≡ checkpoint_at bytes.now }
{
    Content::Checkpoint(Checkpoint {
        process: byte(bytes, 4),
        index: byte(bytes, 5),
        state: State {
            a: word(bytes, 6),
            b: word(bytes, 14),
            c: word(bytes, 22),
            d: word(bytes, 30),
        },
    })
}

// Here and at an output the numbers are the format's.
fn sends(bytes: &[u8]) -> Sends
    ensures { result ≡ sends_at bytes.now }
{
    match byte(bytes, 16) {
        0 => Sends::Nothing,
        1 => Sends::One(send(bytes, 17)),
        _ => Sends::Two(send(bytes, 17), send(bytes, 26)),
    }
}

fn send(bytes: &[u8], at: usize) -> Send
    requires { at ≤ 26 }
    ensures { result ≡ send_at bytes.now at }
{
    Send {
        target: byte(bytes, at),
        value: word(bytes, at + 1),
    }
}

fn output(bytes: &[u8]) -> Option<u64>
    ensures { result ≡ output_at bytes.now }
{
    match byte(bytes, 35) {
        0 => None,
        _ => Some(word(bytes, 36)),
    }
}

fn word(bytes: &[u8], at: usize) -> u64
    requires { at ≤ 44 }
    ensures { result ≡ word_at bytes.now at }
{
    u64::from_le_bytes(entries(bytes, at))
}

fn entries(bytes: &[u8], at: usize) -> [u8; 8]
    requires { at ≤ 44 }
    ensures { result ≡ entries_at bytes.now at }
{
    array::from_fn(|k| byte(bytes, at + k))
}

// A missing byte counts as 0.
fn byte(bytes: &[u8], at: usize) -> u8
    ensures { result ≡ slice_index bytes.now at }
{
    bytes.get(at).copied().unwrap_or(0)
}
