//! The records of an hour file, sorted by kind.
ghost use Rattle.std.specs.Prelude.{◌≡◌, IfOk, OnOk};
ghost use Rattle.hourbook.specs.Collecting.{Collected};
ghost use Rattle.hourbook.specs.Naming.{census_lines};
ghost use Rattle.hourbook.specs.SortedRecords.{plus, said, unsorted};
ghost use Rattle.hourbook.specs.declared.hourfile.«record».Record.TheVariants.{Zone, Border as RecordBorder, Leg, Loss};

use crate::hourfile::border::Border;
use crate::hourfile::census::Census;
use crate::hourfile::fault::FileFault;
use crate::hourfile::position::NetPosition;
use crate::hourfile::price::Price;
use crate::hourfile::record::{
    BorderRecord, LegRecord, LossRecord, OwnerRecord, Record, ZoneRecord,
};
use crate::hourfile::records::WholeRecords;
use std::alloc::Global;

// A leg with its number, which counts from 1 in the order of the file.
#[derive(Clone, Copy, Debug, PartialEq, Eq)]
pub(crate) struct NumberedLeg {
    pub(crate) number: u8,
    pub(crate) line: u8,
    pub(crate) contribution: u16,
}

// Prices are kept beside the net positions and not with them: they are a table of their own, so that a zone can later
// be tried at another price. Losses stand by line, and are 0 where none is named.
#[derive(Drop)]
pub(crate) struct Gathered {
    pub(crate) prices: Vec<Price>,
    pub(crate) positions: Vec<NetPosition>,
    pub(crate) borders: Vec<Border>,
    pub(crate) legs: Vec<NumberedLeg>,
    pub(crate) losses: Vec<u16>,
    pub(crate) owners: Vec<OwnerRecord>,
}

impl Gathered {
    fn new(heap: Global, census: Census) -> Result<Gathered, FileFault>
        ensures { IfOk result (λ g. said g ≡ unsorted (census_lines census)) }
    {
        Ok(Gathered {
            prices: Vec::new(heap),
            positions: Vec::new(heap),
            borders: Vec::new(heap),
            legs: Vec::new(heap),
            losses: vec![in heap; 0u16; usize::from(census.lines())]?,
            owners: Vec::new(heap),
        })
    }

    // The records of a lawful file. Numbers are tested again on the way, since tables hold only such as are lawful.
    pub(crate) fn from_bytes(
        heap: Global,
        bytes: &[u8],
        census: Census,
    ) -> Result<Gathered, FileFault>
        ensures { IfOk result (λ g. Collected bytes.now (census_lines census) (said g)) }
    {
        let mut gathered = Gathered::new(heap, census)?;
        for (before, record) in WholeRecords::new(bytes).enumerate() {
            let place = before + 1;
            let record = record.map_err(|_| FileFault::Unread { place })?;
            gathered.take(record, place)?;
        }
        Ok(gathered)
    }

    fn take(&mut self, record: Record, place: usize) -> Result<(), FileFault>
        ensures { OnOk result (said self.new ≡ plus (said self.old) «record») }
    {
        match record {
            Record::Zone(zone) => self.take_zone(zone, place),
            Record::Border(border) => self.take_border(border, place),
            Record::Leg(leg) => self.take_leg(leg, place),
            Record::Loss(loss) => self.take_loss(loss, place),
            Record::Owner(owner) => Ok(self.owners.push(owner)?),
            Record::Header(_) | Record::Factor(_) | Record::End => Ok(()),
        }
    }

    fn take_zone(&mut self, zone: ZoneRecord, place: usize) -> Result<(), FileFault>
        ensures { OnOk result (said self.new ≡ plus (said self.old) (Zone zone)) }
    {
        let price = Price::try_from(zone.price).map_err(|_| FileFault::Range { place })?;
        let position = NetPosition::try_from(zone.position).map_err(|_| FileFault::Range {
            place,
        })?;
        self.prices.push(price)?;
        Ok(self.positions.push(position)?)
    }

    fn take_border(&mut self, record: BorderRecord, place: usize) -> Result<(), FileFault>
        ensures { OnOk result (said self.new ≡ plus (said self.old) (RecordBorder «record»)) }
    {
        let border = Border::try_from(record).map_err(|_| FileFault::Range { place })?;
        Ok(self.borders.push(border)?)
    }

    fn take_leg(&mut self, leg: LegRecord, place: usize) -> Result<(), FileFault>
        ensures { OnOk result (said self.new ≡ plus (said self.old) (Leg leg)) }
    {
        let number = u8::try_from(self.legs.len() + 1).map_err(|_| FileFault::Count { place })?;
        let LegRecord { line, contribution } = leg;
        Ok(
            self.legs.push(NumberedLeg {
                number,
                line,
                contribution,
            })?,
        )
    }

    fn take_loss(&mut self, loss: LossRecord, place: usize) -> Result<(), FileFault>
        ensures { OnOk result (said self.new ≡ plus (said self.old) (Loss loss)) }
    {
        let k = usize::from(loss.line).saturating_sub(1);
        let held = self.losses.get_mut(k).ok_or(FileFault::Name { place })?;
        *held = loss.loss;
        Ok(())
    }
}
