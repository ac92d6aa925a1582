//! Why a call of the book is refused.
ghost use Rattle.std.specs.Prelude.{◌≡◌, Some};
ghost use Rattle.hourbook.specs.BookFaults.{notice_of};
ghost use Rattle.hourbook.specs.Notices.{refusal_line};
ghost use Rattle.hourbook.specs.declared.book.fault.BookFault.TheVariants.{Settlement};
ghost use Rattle.hourbook.specs.declared.region.fault.RegionFault.TheVariants.{File};
ghost use Rattle.hourbook.specs.declared.settlement.fault.SettlementFault.TheVariants.{Region};

use crate::book::Refusal;
use crate::hourfile::fault::FileFault;
use crate::notice::Notice;
use crate::region::fault::RegionFault;
use crate::settlement::fault::SettlementFault;
use std::fmt;

#[derive(Clone, Copy, Debug, PartialEq, Eq, Hash)]
pub(crate) enum BookFault {
    Settlement(SettlementFault),
    // entry memory is shorter than the used entries
    Entries,
    // the region is already settled in this opening
    Settled,
    // the hour to open is 0 or stands
    Hour,
    // nothing was settled that could be posted
    Nothing,
    // no owner has this number
    Owner,
    // free entries are too few
    Full,
    // statement memory is too short
    Statement,
}

impl BookFault {
    pub(crate) fn notice(&self) -> Notice
        ensures { result ≡ notice_of self.now }
    {
        let number = match self {
            BookFault::Settlement(fault) => return fault.notice(),
            BookFault::Entries => 13,
            BookFault::Settled => 14,
            BookFault::Hour => 15,
            BookFault::Nothing => 16,
            BookFault::Owner => 18,
            BookFault::Full => 20,
            BookFault::Statement => 21,
        };
        Notice {
            number,
            layer: 4,
            place: 0,
        }
    }
}

impl fmt::Display for BookFault {
    ghost output = { λ f. Some (refusal_line (notice_of f)) };

    fn fmt<W: fmt::Write>(&self, f: &mut fmt::Formatter<W>) -> fmt::Result {
        self.notice().fmt(f)
    }
}

// By hand, as in `hourfile/fault.rt`: clauses name what a `?` makes.
impl From<SettlementFault> for BookFault {
    ghost from_gives = { λ e r. r ≡ Settlement e };

    fn from(e: SettlementFault) -> BookFault {
        BookFault::Settlement(e)
    }
}

// A file is refused by the layer at the bottom: its fault goes up through all.
impl From<FileFault> for BookFault {
    ghost from_gives = { λ e r. r ≡ Settlement (Region (File e)) };

    fn from(e: FileFault) -> BookFault {
        BookFault::from(SettlementFault::from(RegionFault::from(e)))
    }
}

// The fault alone, where the book is let go.
impl<B: Drop> From<Refusal<B>> for BookFault {
    ghost from_gives = { λ e r. r ≡ e.fault };

    fn from(e: Refusal<B>) -> BookFault {
        e.fault
    }
}
