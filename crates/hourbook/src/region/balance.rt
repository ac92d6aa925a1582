//! Whether the tables of the coordinated method are sound.
ghost use Rattle.std.specs.Prelude.{sum, ◌≡◌, ◌≤◌, map, ◌↔◌, IsTrue, unsigned_abs};
ghost use Rattle.hourbook.specs.SignedSums.{sum_z};
ghost use Rattle.hourbook.specs.Tables.{tenths_of};
ghost use Rattle.hourbook.specs.Balance.{only, at_zone, net_capacity, Balanced, Judged};

use crate::hourfile::border::Border;
use crate::hourfile::network::Network;
use crate::hourfile::position::NetPosition;
use crate::region::fault::Flaw;

// The magnitudes of sound net positions add to no more.
const LARGEST: u64 = 1_000_000;

impl Border {
    // Its capacity, where an end is the zone.
    fn capacity_in(&self, end: u8, zone: usize) -> i64
        ensures value { result ≡ only end zone self.now.capacity.value }
        ensures bound { unsigned_abs result ≤ unsigned_abs self.now.capacity.value }
    {
        if usize::from(end) == zone {
            i64::from(self.capacity.get())
        } else {
            0
        }
    }

    // What its capacity takes out of a zone.
    fn capacity_at(&self, zone: usize) -> i64
        ensures value { result ≡ at_zone zone self.now }
        ensures bound { unsigned_abs result ≤ 400000 }
    {
        self.capacity_in(self.near, zone) - self.capacity_in(self.far, zone)
    }
}

impl Network {
    // What all capacities take out of a zone.
    fn capacity_out(&self, zone: usize) -> i64
        ensures { result ≡ net_capacity zone self.now.borders.items }
    {
        self.borders()
            .iter()
            .map(|border| border.capacity_at(zone))
            .sum()
    }

    fn position_sum(&self) -> i64
        ensures { result ≡ sum_z (tenths_of self.now.positions.items) }
    {
        self.positions()
            .iter()
            .map(|position| i64::from(position.get()))
            .sum()
    }

    // Not one function with the sum above: this adds magnitudes, in an unsigned type.
    fn position_size(&self) -> u64
        ensures { result ≡ sum (map unsigned_abs (tenths_of self.now.positions.items)) }
    {
        self.positions()
            .iter()
            .map(|position| u64::from(position.get().unsigned_abs()))
            .sum()
    }

    // Whether a zone's net position is what the capacities take out of it.
    fn is_met(&self, zone: usize, position: &NetPosition) -> bool
        ensures { IsTrue result ↔ (position.now.value ≡ net_capacity zone self.now.borders.items) }
    {
        i64::from(position.get()) == self.capacity_out(zone)
    }

    // Whether net positions add to 0, and each is what the capacities take out of its zone.
    fn is_balanced(&self) -> bool
        ensures { IsTrue result ↔ Balanced (tenths_of self.now.positions.items) self.now.borders.items }
    {
        self.position_sum() == 0
            && self
                .positions()
                .iter()
                .enumerate()
                .all(|(k, position)| self.is_met(k + 1, position))
    }

    // Whether the tables are sound, or what is wrong with them.
    pub(crate) fn verdict(&self) -> Result<(), Flaw>
        ensures { Judged (tenths_of self.now.positions.items) self.now.borders.items result }
    {
        if !self.is_balanced() {
            return Err(Flaw::Imbalance);
        }
        if self.position_size() > LARGEST {
            return Err(Flaw::Excess);
        }
        Ok(())
    }
}
