//! The income of a region.
ghost use Rattle.std.specs.Prelude.{◌≡◌, ◌≤◌, unsigned_abs};
ghost use Rattle.hourbook.specs.Meaning.{ZoneBounded};
ghost use Rattle.hourbook.specs.Worths.{worth, income_of};

use crate::region::meaning::Region;
use crate::region::rows::Zone;

impl Zone {
    // What its net position is worth, in tenths of a cent.
    fn worth(&self) -> i64
        requires { ZoneBounded self.now }
        ensures value { result ≡ worth self.now }
        ensures bound { unsigned_abs result ≤ 500000000000 }
    {
        i64::from(self.position) * i64::from(self.price)
    }
}

// In cents, rounded toward minus infinity.
pub(crate) fn income<R: Region>(region: &R) -> i64
    ensures { result ≡ income_of (R.meaning region.now) }
{
    let sum: i64 = region.zones().map(|zone| zone.worth()).sum();
    (-sum).div_euclid(10)
}
