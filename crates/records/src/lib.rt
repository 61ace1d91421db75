// The records that a store keeps: what a process did, where it stood, and how far all went back.
#![tactic(auto)]

use programs::values::{Sends, State};

// One interval of a process: the message that began it, and what the step then gave.
#[derive(Clone, Copy, PartialEq, Eq, Debug)]
pub struct Interval {
    pub process: u8,
    // counted from 1
    pub index: u8,
    // a process, or 8 for the outside
    pub source: u8,
    // the sender's interval in which the message was sent, 0 for an input
    pub sent_at: u8,
    pub value: u64,
    pub sends: Sends,
    pub output: Option<u64>,
    // the dependency vector: for each process its last interval that this one depends on; the rules fix eight entries
    pub vector: [u8; 8],
}

// The state of a process after its interval `index`.
#[derive(Clone, Copy, PartialEq, Eq, Debug)]
pub struct Checkpoint {
    pub process: u8,
    pub index: u8,
    pub state: State,
}

#[derive(Clone, Copy, PartialEq, Eq, Debug)]
pub enum Content {
    Interval(Interval),
    Checkpoint(Checkpoint),
    // a recovery line: for each process the interval to which it went back
    Line([u8; 8]),
}

#[derive(Clone, Copy, PartialEq, Eq, Debug)]
pub struct Record {
    pub content: Content,
}

impl Interval {
    // What a row's place holds before anything is written to it.
    pub const EMPTY: Interval = Interval {
        process: 0,
        index: 0,
        source: 0,
        sent_at: 0,
        value: 0,
        sends: Sends::Nothing,
        output: None,
        vector: [0; 8],
    };
}

impl Record {
    // What a slot holds before anything is written to it.
    pub const EMPTY: Record = Record {
        content: Content::Line([0; 8]),
    };
}
