//! Which zones, lines and legs an hour file names.
ghost use Rattle.std.specs.Prelude.{◌≡◌, ◌↔◌, IsTrue};
ghost use Rattle.std.specs.Bool.{OnFalse, OnTrue};
ghost use Rattle.hourbook.specs.Naming.{BorderNamed, FactorNamed, LegNamed, LossNamed, Named, factor_noted, leg_noted, loss_noted, none_named, noted};
ghost use Rattle.hourbook.specs.Numbering.{Numbered};
ghost use Rattle.hourbook.specs.declared.hourfile.fault.FileFault.TheVariants.{Name};

use crate::hourfile::census::Census;
use crate::hourfile::fault::FileFault;
use crate::hourfile::method::Method;
use crate::hourfile::record::{BorderRecord, FactorRecord, LegRecord, LossRecord, Record};
use crate::hourfile::rule::Rule;
use arrayvec::ArrayVec;

// What the records so far have said: the line of each leg, by leg and zone which factors have come, and by line which
// losses. The tables stand in the struct, since judging allocates nothing.
#[derive(Drop)]
pub(crate) struct Names {
    census: Census,
    lines: ArrayVec<u8, 64>,
    factors: [[bool; 16]; 64],
    losses: [bool; 64],
}

// Whether n is one of so many, numbered from 1.
pub(crate) fn is_numbered(n: u8, count: u8) -> bool
    ensures { IsTrue result ↔ Numbered count n }
{
    (1..=count).contains(&n)
}

impl Names {
    pub(crate) fn new(census: Census) -> Names
        ensures { result ≡ none_named census }
    {
        Names {
            census,
            lines: ArrayVec::new(),
            factors: [[false; 16]; 64],
            losses: [false; 64],
        }
    }

    fn names_zones(&self, border: &BorderRecord) -> bool
        ensures { IsTrue result ↔ BorderNamed self.now.census border.now }
    {
        let zones = self.census.zones;
        is_numbered(border.near, zones)
            && is_numbered(border.far, zones)
            && border.near != border.far
    }

    // The census counts every leg, so that none comes past it. This and the next two are parts of `admits`, and answer as
    // it does.
    fn note_leg(&mut self, leg: &LegRecord) -> bool
        ensures test { IsTrue result ↔ LegNamed self.old leg.now }
        ensures yes { OnTrue result (self.new ≡ leg_noted self.old leg.now) }
        ensures no { OnFalse result (self.new ≡ self.old) }
    {
        if self.lines.len() >= usize::from(self.census.legs)
            || !is_numbered(leg.line, self.census.lines())
        {
            return false;
        }
        self.lines.push(leg.line);
        true
    }

    // An external line takes no factor, and a leg none twice for one zone.
    fn note_factor(&mut self, factor: &FactorRecord) -> bool
        ensures test { IsTrue result ↔ FactorNamed self.old factor.now }
        ensures yes { OnTrue result (self.new ≡ factor_noted self.old factor.now) }
        ensures no { OnFalse result (self.new ≡ self.old) }
    {
        let census = self.census;
        if census.method != Method::FlowBased
            || !is_numbered(factor.leg, census.legs)
            || !is_numbered(factor.zone, census.zones)
        {
            return false;
        }
        let leg = usize::from(factor.leg) - 1;
        let zone = usize::from(factor.zone) - 1;
        let external = self
            .lines
            .get(leg)
            .is_some_and(|line| *line > census.borders);
        if external || self.factors[leg][zone] {
            return false;
        }
        self.factors[leg][zone] = true;
        true
    }

    fn note_loss(&mut self, loss: &LossRecord) -> bool
        ensures test { IsTrue result ↔ LossNamed self.old loss.now }
        ensures yes { OnTrue result (self.new ≡ loss_noted self.old loss.now) }
        ensures no { OnFalse result (self.new ≡ self.old) }
    {
        if !is_numbered(loss.line, self.census.lines()) {
            return false;
        }
        let line = usize::from(loss.line) - 1;
        if self.losses[line] {
            return false;
        }
        self.losses[line] = true;
        true
    }
}

// A record names only what is there, and nothing twice that comes once.
impl Rule for Names {
    ghost passes = { Named };

    ghost after = { noted };

    ghost fault = { Name };

    fn fault_at(place: usize) -> FileFault {
        FileFault::Name { place }
    }

    fn admits(&mut self, record: &Record) -> bool {
        match record {
            Record::Border(border) => self.names_zones(border),
            Record::Leg(leg) => self.note_leg(leg),
            Record::Factor(factor) => self.note_factor(factor),
            Record::Loss(loss) => self.note_loss(loss),
            Record::Owner(owner) => is_numbered(owner.leg, self.census.legs),
            Record::Header(_) | Record::Zone(_) | Record::End => true,
        }
    }
}
