//! Losses: a layer over any region, and the whole is a region again.
ghost use Rattle.std.specs.Prelude.{◌≡◌};
ghost use Rattle.hourbook.specs.LossRule.{shrink, leaving_price, drained, lossy, losses_means};
ghost use Rattle.hourbook.specs.LossBounds.{losses_bounded};

use crate::hourfile::loss_table::LossTable;
use crate::region::fault::Flaw;
use crate::region::meaning::Region;
use crate::region::rows::{Line, Zone};

// The spread moved toward 0 by the loss, and no further.
fn shrunk(spread: i32, loss: u64) -> i32
    ensures { result ≡ shrink spread loss }
{
    let loss = u32::try_from(loss).unwrap_or(u32::MAX);
    if spread < 0 {
        spread.saturating_add_unsigned(loss).min(0)
    } else {
        spread.saturating_sub_unsigned(loss).max(0)
    }
}

impl Line {
    // The price at the end that the flow leaves; no flow leaves the near end.
    fn leaving_price(&self) -> i32
        ensures { result ≡ leaving_price self.now }
    {
        if self.flow < 0 {
            self.far_price
        } else {
            self.near_price
        }
    }

    // What a loss of so many ten-thousandths takes of that price.
    fn drained(&self, loss: u16) -> u64
        ensures { result ≡ drained loss self.now }
    {
        u64::from(loss) * u64::from(self.leaving_price().unsigned_abs()) / 10_000
    }

    // The line with its loss: all else stays.
    fn lessened(self, loss: u16) -> Line
        ensures { result ≡ lossy loss self }
    {
        Line {
            spread: shrunk(self.spread, self.drained(loss)),
            ..self
        }
    }
}

// A region of any kind with the losses of its lines.
#[derive(Drop)]
pub(crate) struct Losses<R> {
    below: R,
    table: LossTable,
}

impl<R> Losses<R> {
    pub(crate) fn over(below: R, table: LossTable) -> Losses<R>
        ensures { (result.below ≡ below) × (result.table ≡ table) }
    {
        Losses { below, table }
    }
}

impl<R: Region> Region for Losses<R> {
    ghost meaning = { λ s. losses_means s.table.losses.items (R.Region.meaning s.below) };

    fn verdict(&self) -> Result<(), Flaw> {
        self.below.verdict()
    }

    fn zone_count(&self) -> usize {
        self.below.zone_count()
    }

    fn zone(&self, k: usize) -> Option<Zone> {
        self.below.zone(k)
    }

    fn hub_price(&self) -> Option<i32> {
        self.below.hub_price()
    }

    fn line_count(&self) -> usize {
        self.below.line_count()
    }

    fn line(&self, k: usize) -> Option<Line> {
        self.below
            .line(k)
            .map(|line| line.lessened(self.table.at(k)))
    }

    ghost bounded = { λ s. losses_bounded s.table.losses.items (R.Region.meaning s.below) (R.Region.bounded s.below) };
}
