//! What is wrong with an hour file.
ghost use Rattle.std.specs.Prelude.{◌≡◌};
ghost use Rattle.hourbook.specs.FileFaults.{notice_of};
ghost use Rattle.hourbook.specs.declared.hourfile.fault.FileFault.TheVariants.{Memory};

use crate::notice::Notice;
use std::alloc::{AllocError, AllocFailed};

// The first rule that the file breaks, and where. `place` counts records from 1, and is 0 where no record is at fault.
#[derive(Clone, Copy, Debug, PartialEq, Eq, Hash)]
pub(crate) enum FileFault {
    // no memory for the tables of a lawful file
    Memory,
    Unread { place: usize },
    Order { place: usize },
    Count { place: usize },
    Range { place: usize },
    Name { place: usize },
    Contribution { line: usize },
    Keys { leg: usize },
}

impl FileFault {
    pub(crate) fn notice(&self) -> Notice
        ensures { result ≡ notice_of self.now }
    {
        let (number, place) = match *self {
            FileFault::Memory => (0, 0),
            FileFault::Unread { place } => (1, place),
            FileFault::Order { place } => (2, place),
            FileFault::Count { place } => (3, place),
            FileFault::Range { place } => (4, place),
            FileFault::Name { place } => (5, place),
            FileFault::Contribution { line } => (6, line),
            FileFault::Keys { leg } => (7, leg),
        };
        Notice {
            number,
            layer: 1,
            place,
        }
    }
}

// `thiserror` would write these conversions, but with no `from_gives`, and clauses name the fault that a `?` makes.
impl From<AllocError> for FileFault {
    ghost from_gives = { λ _ r. r ≡ Memory };

    fn from(_e: AllocError) -> FileFault {
        FileFault::Memory
    }
}

impl<T: Drop> From<AllocFailed<T>> for FileFault {
    ghost from_gives = { λ _ r. r ≡ Memory };

    fn from(_e: AllocFailed<T>) -> FileFault {
        FileFault::Memory
    }
}
