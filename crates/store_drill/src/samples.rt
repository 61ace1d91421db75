// The records of the drill: all three kinds.
use programs::values::{Send, Sends, State};
use records::{Checkpoint, Content, Interval, Record};

// Process 0 takes an input and sends it on to process 1, which outputs it.
pub const SENT: Record = Record {
    content: Content::Interval(Interval {
        process: 0,
        index: 1,
        source: 8,
        sent_at: 0,
        value: 10,
        sends: Sends::One(Send {
            target: 1,
            value: 10,
        }),
        output: None,
        vector: [1, 0, 0, 0, 0, 0, 0, 0],
    }),
};

pub const TAKEN: Record = Record {
    content: Content::Interval(Interval {
        process: 1,
        index: 1,
        source: 0,
        sent_at: 1,
        value: 10,
        sends: Sends::Nothing,
        output: Some(10),
        vector: [1, 1, 0, 0, 0, 0, 0, 0],
    }),
};

pub const MARK: Record = Record {
    content: Content::Checkpoint(Checkpoint {
        process: 1,
        index: 1,
        state: State {
            a: 1,
            b: 10,
            c: 0,
            d: 0,
        },
    }),
};

pub const LINE: Record = Record {
    content: Content::Line([1, 1, 0, 0, 0, 0, 0, 0]),
};
