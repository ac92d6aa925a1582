//! Entries of the income book, as they lie in memory.
pub(crate) mod credit;
pub(crate) mod entry;
pub(crate) mod kind;
pub(crate) mod row;
