//! The records of an hour file, one after another.
ghost use Rattle.std.specs.Prelude.{◌≡◌, ◌++◌, length, MatchOption, ◌==◌};
ghost use Rattle.std.specs.Iterator.{at_most};
ghost use Rattle.hourbook.specs.Encoding.{encoded};
ghost use Rattle.hourbook.specs.Format.{Whole};
ghost use Rattle.hourbook.specs.WholeRecords.{RecordOrCut};

use crate::hourfile::record::{Record, first_record};

// The records that the bytes begin with. Stops where no whole record stands in front, so what is left tells the end from a
// cut.
#[derive(Drop)]
pub(crate) struct Records<'a> {
    rest: &'a [u8],
}

impl<'a> Records<'a> {
    pub(crate) fn new(bytes: &'a [u8]) -> Records<'a>
        ensures { result.rest.now ≡ bytes.now }
    {
        Records { rest: bytes }
    }

    pub(crate) fn is_spent(&self) -> bool
        ensures { result ≡ (length self.now.rest.now == 0) }
    {
        self.rest.is_empty()
    }
}

impl<'a> Iterator for Records<'a> {
    type Item = Record;

    ghost next_gives = { λ s r t. MatchOption r ((Whole s.rest.now → ⊥) × (t.rest.now ≡ s.rest.now)) (λ x. s.rest.now ≡ encoded x ++ t.rest.now) };

    ghost remaining = { λ s. at_most (length s.rest.now) };

    fn next(&mut self) -> Option<Record> {
        let record = first_record(self.rest)?;
        self.rest = &self.rest[record.size()..];
        Some(record)
    }
}

// Bytes are left, and no whole record stands in front of them.
#[derive(Clone, Copy, Debug, PartialEq, Eq)]
pub(crate) struct Cut;

// All of the bytes as records. A cut comes once, and nothing after it.
#[derive(Drop)]
pub(crate) struct WholeRecords<'a> {
    records: Records<'a>,
}

impl<'a> WholeRecords<'a> {
    pub(crate) fn new(bytes: &'a [u8]) -> WholeRecords<'a>
        ensures { result.records.rest.now ≡ bytes.now }
    {
        WholeRecords {
            records: Records::new(bytes),
        }
    }
}

impl<'a> Iterator for WholeRecords<'a> {
    type Item = Result<Record, Cut>;

    ghost next_gives = { λ s r t. RecordOrCut s.records.rest.now r t.records.rest.now };

    ghost remaining = { λ s. at_most (length s.records.rest.now) };

    fn next(&mut self) -> Option<Result<Record, Cut>> {
        if self.records.is_spent() {
            return None;
        }
        // no combinator: a cut also ends the records
        let Some(record) = self.records.next() else {
            self.records = Records::new(&[]);
            return Some(Err(Cut));
        };
        Some(Ok(record))
    }
}
