//! The office's notice of a refusal.
ghost use Rattle.std.specs.Prelude.{Some};
ghost use Rattle.hourbook.specs.Notices.{refusal_line};

use std::fmt;

// In the office's numbers: the refusal, the layer that refuses, from the file as 1 to the book as 4, and where the file
// is at fault: a record counted from 1, a line or a leg, or 0 where there is none.
#[derive(Clone, Copy, Debug, PartialEq, Eq, Hash)]
pub(crate) struct Notice {
    pub(crate) number: u8,
    pub(crate) layer: u8,
    pub(crate) place: usize,
}

impl fmt::Display for Notice {
    ghost output = { λ n. Some (refusal_line n) };

    fn fmt<W: fmt::Write>(&self, f: &mut fmt::Formatter<W>) -> fmt::Result {
        write!(f, "R {} {}", self.number, self.place)
    }
}
