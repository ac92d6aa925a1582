//! Settling a region into the open hour.
ghost use Rattle.std.specs.Prelude.{◌≡◌, ℕ, ◌+◌, ◌≤◌, min, ◌||◌, length, is_ok, IfOk, if◌then◌else◌, OnErr};
ghost use Rattle.hourbook.specs.Calls.{settle_judged};
ghost use Rattle.hourbook.specs.Opening.{Admits, Advanced, lines_in, origin_of};
ghost use Rattle.hourbook.specs.Settled.{judged, credits_of, needed, work_of};
ghost use Rattle.sharing.specs.Writes.{written};

use crate::book::OpenBook;
use crate::book::entries::used_entries;
use crate::book::fault::BookFault;
use crate::entry::credit::Origin;
use crate::entry::row::Row;
use crate::hourfile::ownership::Ownership;
use crate::region::meaning::Region;
use crate::settlement::settle::{entries_needed, judge, write};

pub(super) const PLACES: usize = 1_000_000;

impl OpenBook {
    // The income, where the region can be settled and its entries find room.
    fn judge_settle<R: Region>(
        &self,
        region: &R,
        table: &Ownership,
        room: usize,
        memory: &[Row],
    ) -> Result<i64, BookFault>
        ensures answer { result ≡ settle_judged (judged (R.meaning region.now) (lines_in table.now) room) table.now self.now.used (length memory.now) self.now.settled }
        ensures facts { IfOk result (Admits (R.meaning region.now) table.now self.now.used room (length memory.now)) }
    {
        let income = judge(region, table, room)?;
        let used = used_entries(memory, self.used)?.len();
        if self.settled.contains(table.region) {
            return Err(BookFault::Settled);
        }
        if memory.len().min(PLACES) < used + entries_needed(income, table) {
            return Err(BookFault::Full);
        }
        Ok(income)
    }

    // Settles a region: its weights and shares into work memory, its credits as pending entries, and answers the
    // income. Every reason to refuse is tried before anything is written.
    pub(crate) fn settle<R: Region>(
        &mut self,
        memory: &mut [Row],
        region: &R,
        table: &Ownership,
        work: &mut [i64],
    ) -> Result<i64, BookFault>
        ensures answer { result ≡ settle_judged (judged (R.meaning region.now) (lines_in table.now) (length work.old)) table.now self.old.used (length memory.old) self.old.settled }
        ensures work { work.new ≡ (if is_ok result then written work.old 0 (work_of (R.meaning region.now)) else work.old) }
        ensures entries { memory.new ≡ (if is_ok result then written memory.old self.old.used (credits_of (origin_of self.old table.now) (R.meaning region.now) table.now) else memory.old) }
        ensures book { IfOk result (λ income. Advanced self.old self.new table.now income) }
        ensures kept { OnErr result (self.new ≡ self.old) }
    {
        let income = self.judge_settle(region, table, work.len(), memory)?;
        let origin = Origin {
            hour: self.hour,
            region: table.region.get(),
        };
        write(
            region,
            table,
            income,
            origin,
            work,
            &mut memory[self.used..],
        );
        self.settled = self.settled.with(table.region);
        self.used += entries_needed(income, table);
        Ok(income)
    }
}
