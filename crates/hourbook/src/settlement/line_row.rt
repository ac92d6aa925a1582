//! A line as a row to share over.
ghost use Rattle.std.specs.Prelude.{◌≡◌};

use sharing::{Receiving, Weighted};

// The line's number, from 1, and its weight.
#[derive(Clone, Copy, Debug, Default, PartialEq, Eq)]
pub(crate) struct LineRow {
    pub(crate) number: u8,
    pub(crate) weight: u64,
}

impl Weighted for LineRow {
    ghost weighs = { λ x. x.weight };

    fn weight(&self) -> u64 {
        self.weight
    }
}

impl Receiving for LineRow {
    ghost receives = { λ x. x.number };

    fn receiver(&self) -> u8 {
        self.number
    }
}
