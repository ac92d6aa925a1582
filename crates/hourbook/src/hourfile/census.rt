//! What an hour file is about, and how much of it there is.
ghost use Rattle.std.specs.Prelude.{◌≡◌, ◌<◌, ◌≤◌};
ghost use Rattle.hourbook.specs.Numbering.{lines_of};
ghost use Rattle.hourbook.specs.Tallies.{WithinLimits};

use crate::hourfile::method::Method;
use crate::hourfile::record::Header;
use crate::hourfile::tally::Tally;

// 1 to 16 zones, at most 48 borders and 64 legs.
#[derive(Clone, Copy, Debug, PartialEq, Eq)]
pub(crate) struct Census {
    pub(crate) hour: u32,
    pub(crate) region: u8,
    pub(crate) method: Method,
    pub(crate) zones: u8,
    pub(crate) borders: u8,
    pub(crate) legs: u8,
    ghost some_zones: { 1 ≤ zones },
    ghost few_zones: { zones ≤ 16 },
    ghost few_borders: { borders ≤ 48 },
    ghost few_legs: { legs ≤ 64 },
}

impl Census {
    pub(crate) fn new(header: Header, method: Method, tally: Tally) -> Census
        requires limits { WithinLimits tally }
        requires zones { 0 < tally.zones }
        ensures about { (result.hour ≡ header.hour) × (result.region ≡ header.region) × (result.method ≡ method) }
        ensures counts { (result.zones ≡ tally.zones) × (result.borders ≡ tally.borders) × (result.legs ≡ tally.legs) }
    {
        Census {
            hour: header.hour,
            region: header.region,
            method,
            zones: tally.zones,
            borders: tally.borders,
            legs: tally.legs,
        }
    }

    // The borders, and in the flow-based method an external line for each zone.
    pub(crate) fn lines(&self) -> u8
        ensures value { result ≡ lines_of self.now.method self.now.zones self.now.borders }
        ensures bound { result ≤ 64 }
    {
        match self.method {
            Method::FlowBased => self.borders + self.zones,
            Method::Coordinated => self.borders,
        }
    }
}
