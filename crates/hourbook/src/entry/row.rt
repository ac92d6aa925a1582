//! A place of entry memory: plain numbers in 16 bytes.
use crate::entry::kind::EntryKind;

// Any amount may lie here. What an entry reads from it is within range (see `Entry`).
#[derive(Clone, Copy, Debug, PartialEq, Eq)]
pub(crate) struct Row {
    pub(crate) hour: u32,
    pub(crate) amount: i32,
    pub(crate) kind: EntryKind,
    pub(crate) region: u8,
    pub(crate) line: u8,
    pub(crate) leg: u8,
    pub(crate) owner: u8,
}
