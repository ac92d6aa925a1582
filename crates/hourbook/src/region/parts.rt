//! The zones and the lines of a region, one after another.
ghost use Rattle.std.specs.Prelude.{◌≡◌, ◌≤◌, List, drop, length};
ghost use Rattle.std.specs.List.{slice_get};
ghost use Rattle.std.specs.Iterator.{YieldsFirst, item_count};
ghost use Rattle.std.proofs.Common.{arith};
ghost use Rattle.hourbook.specs.Meaning.{Meaning, Bounded};

use crate::region::meaning::Region;
use crate::region::rows::{Line, Zone};
use std::marker::PhantomData;

// What a region has a list of: a zone, or a line.
pub(crate) trait Part {
    ghost list: { Meaning → List Self };

    fn at<R: Region>(region: &R, k: usize) -> Option<Self>
        ensures { result ≡ slice_get (list (R.meaning region.now)) k };

    // that a region within its limits has few
    ghost few: { (m : Meaning) → Bounded m → length (list m) ≤ 64 };
}

impl Part for Zone {
    ghost list = { λ m. m.zones };

    fn at<R: Region>(region: &R, k: usize) -> Option<Zone> {
        region.zone(k)
    }

    ghost few = { λ m h. Prim.omega (arith, h.few_zones) };
}

impl Part for Line {
    ghost list = { λ m. m.lines };

    fn at<R: Region>(region: &R, k: usize) -> Option<Line> {
        region.line(k)
    }

    ghost few = { λ m h. h.few_lines };
}

// The parts of a region that are left, from the place `next` on. A type of its own, since no function can answer an
// `impl Trait`.
#[derive(Drop)]
pub(crate) struct Parts<'a, R, P> {
    region: &'a R,
    next: usize,
    part: PhantomData<P>,
}

impl<'a, R, P> Parts<'a, R, P> {
    pub(crate) fn new(region: &'a R) -> Parts<'a, R, P>
        ensures region { result.region.now ≡ region.now }
        ensures first { result.next ≡ 0 }
    {
        Parts {
            region,
            next: 0,
            part: PhantomData,
        }
    }
}

impl<'a, R: Region, P: Part> Iterator for Parts<'a, R, P> {
    type Item = P;

    ghost next_gives = { YieldsFirst (λ s. drop s.next (P.list (R.meaning s.region.now))) };

    ghost remaining = { item_count (λ s. drop s.next (P.list (R.meaning s.region.now))) };

    fn next(&mut self) -> Option<P> {
        let part = P::at(self.region, self.next)?;
        self.next += 1;
        Some(part)
    }
}
