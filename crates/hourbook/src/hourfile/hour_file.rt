//! What an hour file describes.
ghost use Rattle.std.specs.Prelude.{IfOk};

use crate::hourfile::census::Census;
use crate::hourfile::fault::FileFault;
use crate::hourfile::gathered::Gathered;
use crate::hourfile::loss_table::LossTable;
use crate::hourfile::network::Network;
use crate::hourfile::ownership::Ownership;
use crate::hourfile::prices::Prices;
use std::alloc::Global;

#[derive(Drop)]
pub(crate) struct HourFile {
    pub(crate) hour: u32,
    pub(crate) network: Network,
    pub(crate) prices: Prices,
    pub(crate) losses: LossTable,
    pub(crate) ownership: Ownership,
}

impl HourFile {
    ghost use Rattle.hourbook.specs.SortedRecords.{said};
    ghost use Rattle.hourbook.specs.TablesRead.{Tabled};

    // The tables of a lawful file's sorted records.
    pub(crate) fn new(
        heap: Global,
        census: Census,
        gathered: Gathered,
    ) -> Result<HourFile, FileFault>
        ensures { IfOk result (Tabled census (said gathered)) }
    {
        if gathered.positions.len() != usize::from(census.zones)
            || gathered.borders.len() != usize::from(census.borders)
        {
            return Err(FileFault::Count { place: 0 });
        }
        let lines = gathered.owned_lines(heap, census.lines())?;
        let ownership = Ownership::new(heap, census.region, lines)?;
        let Gathered {
            prices,
            positions,
            borders,
            legs: _,
            losses,
            owners: _,
        } = gathered;
        let network = Network::new(census.method, positions, borders).ok_or(FileFault::Count {
            place: 0,
        })?;
        Ok(HourFile {
            hour: census.hour,
            network,
            prices: Prices::from(prices),
            losses: LossTable::from(losses),
            ownership,
        })
    }
}
