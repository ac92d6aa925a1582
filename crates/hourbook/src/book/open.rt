//! Opening an hour.
ghost use Rattle.std.specs.Prelude.{◌≡◌};
ghost use Rattle.hourbook.specs.Calls.{open_judged};
ghost use Rattle.hourbook.specs.Moves.{Moved};

use crate::book::entries::used_entries;
use crate::book::fault::BookFault;
use crate::book::settle::PLACES;
use crate::book::settled::SettledRegions;
use crate::book::standing::stands;
use crate::book::{OpenBook, Refusal, RestingBook};
use crate::entry::row::Row;

impl RestingBook {
    // A book without entries.
    pub(crate) fn empty() -> RestingBook
        ensures { result.used ≡ 0 }
    {
        RestingBook { used: 0 }
    }

    // Whether the hour can be opened.
    fn judge_open(&self, memory: &[Row], hour: u32) -> Result<(), BookFault>
        ensures { result ≡ open_judged self.now.used memory.now hour }
    {
        // `used` is the smaller: no book has more entries. So bounded, `stands` runs with one counter in place of two.
        let entries = used_entries(memory, self.used.min(PLACES))?;
        if hour == 0 || stands(entries, hour) {
            return Err(BookFault::Hour);
        }
        Ok(())
    }

    // Opens an hour, with nothing settled yet.
    pub(crate) fn open(self, memory: &[Row], hour: u32) -> Result<OpenBook, Refusal<RestingBook>>
        ensures { Moved (open_judged self.used memory.now hour) self (λ o. (o.rest ≡ self) × (o.used ≡ self.used) × (o.hour ≡ hour) × (o.settled ≡ 0)) result }
    {
        if let Err(fault) = self.judge_open(memory, hour) {
            return Err(Refusal { book: self, fault });
        }
        let used = self.used;
        Ok(OpenBook {
            rest: self,
            used,
            hour,
            settled: SettledRegions::default(),
        })
    }
}
