//! Who owns what, by the sorted records of an hour file.
ghost use Rattle.std.specs.Prelude.{◌≡◌, ◌≤◌, map, IfOk};
ghost use Rattle.hourbook.specs.OwnershipRead.{leg_told, legs_of_line, line_said, line_told, lines_told, rows_of_leg, told};

use crate::hourfile::fault::FileFault;
use crate::hourfile::gathered::{Gathered, NumberedLeg};
use crate::hourfile::owned_leg::OwnedLeg;
use crate::hourfile::owned_line::OwnedLine;
use crate::hourfile::owner::OwnerRow;
use std::alloc::{AllocError, Global};

impl Gathered {
    // The owner rows of a leg, in file order.
    fn owner_rows(&self, heap: Global, leg: u8) -> Result<Vec<OwnerRow>, AllocError>
        ensures { IfOk result (λ rows. rows.items ≡ rows_of_leg leg self.now.owners.items) }
    {
        self.owners
            .iter()
            .filter(|record| record.leg == leg)
            .copied()
            .map(OwnerRow::from)
            .collect(heap)
    }

    // A leg with its owners.
    fn owned_leg(&self, heap: Global, leg: NumberedLeg) -> Result<OwnedLeg, FileFault>
        ensures { IfOk result (λ owned. told owned ≡ leg_told self.now.owners.items leg) }
    {
        let rows = self.owner_rows(heap, leg.number)?;
        OwnedLeg::new(leg.number, leg.contribution, rows).ok_or(FileFault::Keys {
            leg: usize::from(leg.number),
        })
    }

    // The legs of a line, in rising number.
    fn owned_legs(&self, heap: Global, line: u8) -> Result<Vec<OwnedLeg>, FileFault>
        ensures { IfOk result (λ owned. map told owned.items ≡ legs_of_line line self.now.legs.items self.now.owners.items) }
    {
        self.legs
            .iter()
            .filter(|leg| leg.line == line)
            .map(|leg| self.owned_leg(heap, *leg))
            .try_collect(heap)
    }

    // A line with its legs.
    fn owned_line(&self, heap: Global, number: u8) -> Result<OwnedLine, FileFault>
        ensures { IfOk result (λ line. line_said line ≡ line_told self.now.legs.items self.now.owners.items number) }
    {
        let legs = self.owned_legs(heap, number)?;
        OwnedLine::new(number, legs).ok_or(FileFault::Contribution {
            line: usize::from(number),
        })
    }

    // So many lines, in rising number. The limit is asked for: no type carries a number of lines.
    pub(crate) fn owned_lines(&self, heap: Global, count: u8) -> Result<Vec<OwnedLine>, FileFault>
        requires { count ≤ 64 }
        ensures { IfOk result (λ lines. map line_said lines.items ≡ lines_told count self.now.legs.items self.now.owners.items) }
    {
        (1..count + 1)
            .map(|number| self.owned_line(heap, number))
            .try_collect(heap)
    }
}
