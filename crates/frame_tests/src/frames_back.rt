// Frames written and read back, cut short and spoilt.
use crate::samples;
use frames::edge::line_bytes;
use frames::read::read_frame;
use frames::write::{frame_size, write_frame};
use records::Record;
use std::process::Abort;
use std::test::Fail;

// The frame of `record` in bytes of 0xEE, at place 3.
fn placed(rt: &impl Abort, record: &Record) -> Result<[u8; 64], Fail> {
    let mut bytes = [0xEE; 64];
    let end = write_frame(&mut bytes, 3, record).ok_or("no room")?;
    assert_eq!(rt; end, frame_size(record) + 3);
    assert_eq!(rt; bytes[2], 0xEE);
    assert!(rt; end < 64);
    assert_eq!(rt; bytes[end], 0xEE);
    Ok(bytes)
}

// Only the first `k` bytes of a frame stand, with zeros or with nothing behind them.
fn torn_at(rt: &impl Abort, frame: &[u8; 53], k: usize) {
    let mut torn = [0; 60];
    assert!(rt; k < 53);
    torn[..k].copy_from_slice(&frame[..k]);
    assert_eq!(rt; read_frame(&torn, 0), None);
    assert_eq!(rt; read_frame(&frame[..k], 0), None);
}

// With another byte at `at`, which no frame can have there, nothing is read.
fn spoilt(rt: &impl Abort, at: usize, byte: u8) {
    let mut bytes = samples::ONE_SEND;
    assert!(rt; at < 53);
    assert_ne!(rt; bytes[at], byte);
    bytes[at] = byte;
    assert_eq!(rt; read_frame(&bytes, 0), None);
}

#[test]
fn read_back(rt: HostRuntime) -> Result<(), Fail> {
    for record in samples::all() {
        let bytes = placed(&rt, &record)?;
        assert_eq!(rt; read_frame(&bytes, 3), Some(record));
        assert_eq!(rt; read_frame(&bytes, 2), None);
        assert_eq!(rt; read_frame(&bytes, 64), None);
        assert_eq!(rt; read_frame(&bytes, usize::MAX), None);
    }
    Ok(())
}

#[test]
fn every_cut(rt: HostRuntime) -> Result<(), Fail> {
    for record in samples::all() {
        let mut frame = [0; 53];
        let size = write_frame(&mut frame, 0, &record).ok_or("no room")?;
        for k in 0..size {
            torn_at(&rt, &frame, k);
        }
        assert_eq!(rt; read_frame(&frame, 0), Some(record));
    }
    Ok(())
}

#[test]
fn by_hand(rt: HostRuntime) -> Result<(), Fail> {
    let mut bytes = [0; 53];
    write_frame(&mut bytes, 0, &samples::one_send()).ok_or("no room")?;
    assert_eq!(rt; bytes, samples::ONE_SEND);
    let mut bytes = [0; 39];
    write_frame(&mut bytes, 0, &samples::checkpoint()).ok_or("no room")?;
    assert_eq!(rt; bytes, samples::CHECKPOINT);
    assert_eq!(rt; line_bytes(), samples::LINE);
    assert_eq!(rt; read_frame(&samples::LINE, 0), Some(samples::line(1)));
    Ok(())
}

#[test]
fn no_room(rt: HostRuntime) {
    for record in samples::all() {
        let mut bytes = [7; 54];
        let size = frame_size(&record);
        assert!(rt; size < 54);
        assert_eq!(rt; write_frame(&mut bytes, 55 - size, &record), None);
        assert_eq!(rt; write_frame(&mut bytes, usize::MAX, &record), None);
        assert_eq!(rt; bytes, [7; 54]);
        assert_eq!(rt; write_frame(&mut bytes, 54 - size, &record), Some(54));
    }
}

// Length, kind, send count, absent send, flag and closing byte.
#[test]
fn strict(rt: HostRuntime) {
    for (at, byte) in [
        (0, 37),
        (0, 0),
        (1, 1),
        (2, 2),
        (3, 1),
        (16, 0),
        (16, 3),
        (26, 1),
        (34, 1),
        (35, 0),
        (35, 2),
        (52, 0),
        (52, 0x5B),
    ] {
        spoilt(&rt, at, byte);
    }
}
