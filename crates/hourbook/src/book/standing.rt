//! Whether an hour stands.
ghost use Rattle.std.specs.Prelude.{◌≡◌, ◌==◌, ◌&&◌};
ghost use Rattle.hourbook.specs.Standing.{decides, standing};

use crate::entry::kind::EntryKind;
use crate::entry::row::Row;

// Whether an entry decides if the hour stands.
fn decides_hour(row: &Row, hour: u32) -> bool
    ensures { result ≡ (row.now.hour == hour && decides row.now.kind) }
{
    row.hour == hour && row.kind != EntryKind::Payment
}

// An hour stands where the last of its entries of kind C or T has kind C. Looks from the last entry backward.
pub(crate) fn stands(entries: &[Row], hour: u32) -> bool
    ensures { result ≡ standing hour entries.now }
{
    entries
        .iter()
        .rev()
        .find(|row| decides_hour(row, hour))
        .is_some_and(|row| row.kind == EntryKind::Credit)
}
