//! What every region tells of itself.
ghost use Rattle.std.specs.Prelude.{◌≡◌, ◌≤◌, drop, length};
ghost use Rattle.std.specs.List.{slice_get};
ghost use Rattle.hourbook.specs.Meaning.{Meaning, Bounded};

use crate::region::fault::Flaw;
use crate::region::parts::Parts;
use crate::region::rows::{Line, Zone};

// A region is a verdict and, where it is sound, zones, lines and at most one hub price. Asking changes nothing.
// Places count from 0; past the end, and in an unsound region, the answer is none. Asked by place, a layer can answer
// from the region below it.
pub(crate) trait Region {
    // what the region stands for
    ghost meaning: { Self → Meaning };

    fn verdict(&self) -> Result<(), Flaw>
        ensures { result ≡ (meaning self.now).verdict };

    fn zone_count(&self) -> usize
        ensures value { result ≡ length (meaning self.now).zones }
        ensures few { result ≤ 16 };

    fn zone(&self, k: usize) -> Option<Zone>
        ensures { result ≡ slice_get (meaning self.now).zones k };

    fn hub_price(&self) -> Option<i32>
        ensures { result ≡ (meaning self.now).hub_price };

    fn line_count(&self) -> usize
        ensures value { result ≡ length (meaning self.now).lines }
        ensures few { result ≤ 64 };

    fn line(&self, k: usize) -> Option<Line>
        ensures { result ≡ slice_get (meaning self.now).lines k };

    // that its counts and numbers keep their limits
    ghost bounded: { (x : Self) → Bounded (meaning x) };

    // All zones, in order.
    final fn zones(&self) -> Parts<'_, Self, Zone>
        ensures { drop result.next (meaning result.region.now).zones ≡ (meaning self.now).zones }
    {
        Parts::new(self)
    }

    // All lines, in order.
    final fn lines(&self) -> Parts<'_, Self, Line>
        ensures { drop result.next (meaning result.region.now).lines ≡ (meaning self.now).lines }
    {
        Parts::new(self)
    }
}
