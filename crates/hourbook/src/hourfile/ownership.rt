//! Who owns the lines of a region.
ghost use Rattle.std.specs.Prelude.{◌≡◌, ◌<◌, ◌≤◌, IfOk, map, length, vec_len};
ghost use Rattle.hourbook.specs.OwnerRows.{rows_of};
ghost use Rattle.hourbook.specs.Rising.{owns, owners_of, number_of};

use crate::hourfile::fault::FileFault;
use crate::hourfile::owned_line::OwnedLine;
use crate::hourfile::owner::Owner;
use crate::hourfile::region_number::RegionNumber;
use arrayvec::ArrayVec;
use std::alloc::Global;

// Owners are numbered below it.
const OWNERS: u8 = 65;

const MOST_LINES: usize = 64;

const MOST_OWNERS: usize = 64;

const MOST_ROWS: usize = 128;

// The region's number, its lines in rising number, and all owners with a row, each once, in rising number. `rows` is how many
// owner rows there are.
#[derive(Drop)]
pub(crate) struct Ownership {
    pub(crate) region: RegionNumber,
    pub(crate) lines: Vec<OwnedLine>,
    pub(crate) owners: Vec<Owner>,
    rows: usize,
    ghost counted: { rows ≡ rows_of lines.items },
    ghost few_rows: { rows_of lines.items ≤ 128 },
    ghost some: { 0 < vec_len lines },
    ghost few: { vec_len lines ≤ 64 },
    ghost some_owners: { 0 < vec_len owners },
    ghost rising: { map number_of owners.items ≡ owners_of lines.items },
    ghost few_owners: { vec_len owners ≤ 64 },
}

// How many owner rows the lines have. The limit is asked for, since the table that carries it is not made yet.
fn row_count(lines: &[OwnedLine]) -> usize
    requires { length lines.now ≤ 64 }
    ensures { result ≡ rows_of lines.now }
{
    lines.iter().map(|line| line.row_count()).sum()
}

// Whether an owner has a row.
fn is_owner(lines: &[OwnedLine], number: u8) -> bool
    ensures { result ≡ owns number lines.now }
{
    lines.iter().any(|line| line.is_owned_by(number))
}

// The owners with a row, each once, in rising number. No heap, so that a table is tested before memory is asked for.
fn rising_owners(lines: &[OwnedLine]) -> ArrayVec<Owner, 65>
    ensures { map number_of result.items ≡ owners_of lines.now }
{
    let mut owners = ArrayVec::new();
    // the numbers of owners, which index no list
    for number in 0..OWNERS {
        if is_owner(lines, number) {
            owners.push(Owner { number });
        }
    }
    owners
}

impl Ownership {
    // The ownership of a lawful file's lines, with its owners gathered from the rows.
    pub(crate) fn new(
        heap: Global,
        region: u8,
        lines: Vec<OwnedLine>,
    ) -> Result<Ownership, FileFault>
        ensures { IfOk result (λ t. (t.region.number ≡ region) × (t.lines.items ≡ lines.items)) }
    {
        let region = RegionNumber::try_from(region).map_err(|_| FileFault::Keys { leg: 0 })?;
        if lines.is_empty() || lines.len() > MOST_LINES {
            return Err(FileFault::Keys { leg: 0 });
        }
        let rising = rising_owners(lines.as_slice());
        let rows = row_count(lines.as_slice());
        if rising.is_empty() || rising.len() > MOST_OWNERS || rows > MOST_ROWS {
            return Err(FileFault::Keys { leg: 0 });
        }
        let owners = rising.iter().copied().collect(heap)?;
        Ok(Ownership {
            region,
            lines,
            owners,
            rows,
        })
    }

    // How many owner rows there are.
    pub(crate) fn row_count(&self) -> usize
        ensures is { result ≡ rows_of self.now.lines.items }
        ensures few { result ≤ 128 }
    {
        self.rows
    }
}
