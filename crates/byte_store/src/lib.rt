// The byte store: records as frames in lent bytes.
#![tactic(auto)]

use crate::journal::Journal;
use stores::record_store::RecordStore;

pub mod edge;
pub mod journal;

pub type ByteStore<'a> = RecordStore<Journal<'a>>;
