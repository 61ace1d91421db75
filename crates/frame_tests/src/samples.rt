// Records of all three kinds, and the frames of some written out by hand.
use programs::values::{Send, Sends, State};
use records::{Checkpoint, Content, Interval, Record};

pub(crate) fn interval(sends: Sends, output: Option<u64>) -> Record {
    Record {
        content: Content::Interval(Interval {
            process: 1,
            index: 2,
            source: 8,
            sent_at: 5,
            value: 0x0807060504030201,
            sends,
            output,
            vector: [9, 2, 0, 0, 0, 0, 0, 96],
        }),
    }
}

pub(crate) fn checkpoint() -> Record {
    Record {
        content: Content::Checkpoint(Checkpoint {
            process: 1,
            index: 3,
            state: State {
                a: 1,
                b: u64::MAX,
                c: 0,
                d: 256,
            },
        }),
    }
}

pub(crate) fn line(first: u8) -> Record {
    Record {
        content: Content::Line([first, 0, 0, 0, 0, 0, 0, 0]),
    }
}

pub(crate) fn one_send() -> Record {
    let m = Send {
        target: 2,
        value: 10,
    };
    interval(Sends::One(m), Some(255))
}

// All three kinds, with no, one and two sends, with and without an output.
pub(crate) fn all() -> [Record; 5] {
    let m = Send {
        target: 7,
        value: 0,
    };
    let n = Send {
        target: 0,
        value: u64::MAX,
    };
    [
        interval(Sends::Nothing, None),
        one_send(),
        interval(Sends::Two(m, n), Some(u64::MAX)),
        checkpoint(),
        line(1),
    ]
}

// The frame of `one_send`.
pub(crate) const ONE_SEND: [u8; 53] = [
    0x33, 0x00, 0x01, 0x00, 0x01, 0x02, 0x08, 0x05, 0x01, 0x02, 0x03, 0x04, 0x05, 0x06, 0x07, 0x08,
    0x01, 0x02, 0x0A, 0x00, 0x00, 0x00, 0x00, 0x00, 0x00, 0x00, 0x00, 0x00, 0x00, 0x00, 0x00, 0x00,
    0x00, 0x00, 0x00, 0x01, 0xFF, 0x00, 0x00, 0x00, 0x00, 0x00, 0x00, 0x00, 0x09, 0x02, 0x00, 0x00,
    0x00, 0x00, 0x00, 0x60, 0x5A,
];

// The frame of `checkpoint`.
pub(crate) const CHECKPOINT: [u8; 39] = [
    0x25, 0x00, 0x02, 0x00, 0x01, 0x03, 0x01, 0x00, 0x00, 0x00, 0x00, 0x00, 0x00, 0x00, 0xFF, 0xFF,
    0xFF, 0xFF, 0xFF, 0xFF, 0xFF, 0xFF, 0x00, 0x00, 0x00, 0x00, 0x00, 0x00, 0x00, 0x00, 0x00, 0x01,
    0x00, 0x00, 0x00, 0x00, 0x00, 0x00, 0x5A,
];

// The frame of the line of 1 and then zeros.
pub(crate) const LINE: [u8; 13] = [
    0x0B, 0x00, 0x03, 0x00, 0x01, 0x00, 0x00, 0x00, 0x00, 0x00, 0x00, 0x00, 0x5A,
];
