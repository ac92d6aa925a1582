//! One hour, from the bytes of its file to the statements of its owners.
ghost use Rattle.std.specs.Prelude.{◌≡◌, ◌++◌, IfOk, OnOk};
ghost use Rattle.std.specs.List.{flat_map};
ghost use Rattle.hourbook.specs.Hours.{DescribedAndStated, Posted, Stated, failure_of, page_of};
ghost use Rattle.hourbook.specs.declared.hour.Failure.TheVariants.{Refused, Memory};

use crate::book::RestingBook;
use crate::book::fault::BookFault;
use crate::entry::kind::EntryKind;
use crate::entry::row::Row;
use crate::hourfile::fault::FileFault;
use crate::hourfile::hour_file::HourFile;
use crate::hourfile::owner::Owner;
use crate::hourfile::ownership::Ownership;
use crate::hourfile::read::read;
use crate::region::coordinated::Coordinated;
use crate::region::losses::Losses;
use crate::region::meaning::Region;
use std::alloc::{AllocError, Global};
use thiserror::Error;

// An hour file has at most 64 lines, and 128 owner rows.
const WORK: usize = 128;

const ENTRIES: usize = 128;

// A place of entry memory before an entry is written to it.
const BLANK: Row = Row {
    hour: 0,
    amount: 0,
    kind: EntryKind::Credit,
    region: 0,
    line: 0,
    leg: 0,
    owner: 0,
};

// Two lines of at most 25 bytes together, and one of at most 34 for each entry.
const PAGE: usize = 34 * ENTRIES + 25;

// Why an hour has no statements.
#[derive(Clone, Copy, Debug, PartialEq, Eq, Error)]
pub(crate) enum Failure {
    #[error("{0}")]
    Refused(BookFault),
    #[error("no memory for the hour")]
    Memory,
    #[error("the flow-based method is not built yet")]
    Unbuilt,
}

// By hand, as in `hourfile/fault.rt`: clauses name what a `?` makes.
impl From<BookFault> for Failure {
    ghost from_gives = { λ e r. r ≡ Refused e };

    fn from(e: BookFault) -> Failure {
        Failure::Refused(e)
    }
}

impl From<FileFault> for Failure {
    ghost from_gives = { λ e r. r ≡ failure_of e };

    fn from(e: FileFault) -> Failure {
        match e {
            FileFault::Memory => Failure::Memory,
            _ => Failure::Refused(BookFault::from(e)),
        }
    }
}

impl From<AllocError> for Failure {
    ghost from_gives = { λ _ r. r ≡ Memory };

    fn from(_e: AllocError) -> Failure {
        Failure::Memory
    }
}

// The statements of the owners of the file that the bytes are, in rising number.
pub(crate) fn statements(heap: Global, bytes: &[u8]) -> Result<Vec<u8>, Failure>
    ensures { IfOk result (λ t. DescribedAndStated bytes.now t.items) }
{
    stated(heap, read(heap, bytes)?)
}

// The statements of a file's owners in rising number, its hour posted in an empty book.
fn stated(heap: Global, file: HourFile) -> Result<Vec<u8>, Failure>
    ensures { IfOk result (λ t. Stated file t.items) }
{
    let HourFile {
        hour,
        network,
        prices,
        losses,
        ownership,
    } = file;
    let below = Coordinated::new(&network, &prices).ok_or(Failure::Unbuilt)?;
    let region = Losses::over(below, losses);
    let mut memory = vec![in heap; BLANK; ENTRIES]?;
    let mut work = vec![in heap; 0i64; WORK]?;
    let book = posted(&region, &ownership, hour, &mut memory, &mut work)?;
    pages(heap, &book, &memory, &ownership.owners)
}

// An empty book with the hour opened, the region settled, and both posted: its entries are the region's credits.
fn posted<R: Region>(
    region: &R,
    ownership: &Ownership,
    hour: u32,
    memory: &mut [Row],
    work: &mut [i64],
) -> Result<RestingBook, BookFault>
    ensures { IfOk result (λ book. Posted (R.meaning region.now) ownership.now hour book.used memory.old memory.new) }
{
    let mut book = RestingBook::empty().open(memory, hour)?;
    book.settle(memory, region, ownership, work)?;
    Ok(book.post(memory)?)
}

// One owner's statement more.
fn append_page(
    text: &mut Vec<u8>,
    book: &RestingBook,
    memory: &[Row],
    owner: Owner,
    page: &mut [u8],
) -> Result<(), Failure>
    ensures { OnOk result (text.new.items ≡ text.old.items ++ page_of book.now.used memory.now owner) }
{
    let n = book.statement(memory, owner.number, page)?;
    Ok(text.extend_from_slice(&page[..n])?)
}

// The owners' statements, one after another.
fn pages(
    heap: Global,
    book: &RestingBook,
    memory: &[Row],
    owners: &[Owner],
) -> Result<Vec<u8>, Failure>
    ensures { IfOk result (λ t. t.items ≡ flat_map (page_of book.now.used memory.now) owners.now) }
{
    let mut text = Vec::new(heap);
    // the book's calls write into lent memory
    let mut page = vec![in heap; 0u8; PAGE]?;
    for owner in owners {
        append_page(&mut text, book, memory, *owner, &mut page)?;
    }
    Ok(text)
}

#[cfg(test)]
mod tests {
    use super::*;
    use std::test::Fail;

    #[test]
    fn a_negative_income_is_borne_in_equal_shares(rt: HostRuntime) -> Result<(), Fail> {
        let file =
            b"H\x00\x00\x00\x07\x01\x02Z\x00\x00\x00\x0a\x00\x00\x00\x64Z\x00\x00\x00\x00\xff\xff\xff\x9cB\x01\x02\x00\x00\x00\x64L\x01\x00\x01O\x01\x03\x13\x88O\x01\x01\x0a\xe1O\x01\x02\x08\xa7E";
        let text = statements(rt.alloc(), file)?;
        let lines =
            b"O 1\nC 7 1 0 0 -33\nB -33\nO 2\nC 7 1 0 0 -33\nB -33\nO 3\nC 7 1 0 0 -34\nB -34\n";
        assert!(rt; text.as_slice() == lines.as_slice());
        Ok(())
    }

    #[test]
    fn refusals_of_region_and_settlement(rt: HostRuntime) -> Result<(), Fail> {
        let unbalanced =
            b"H\x00\x00\x00\x07\x01\x02Z\x00\x00\x00\x0a\x00\x00\x00\x63Z\x00\x00\x00\x00\xff\xff\xff\x9cB\x01\x02\x00\x00\x00\x64L\x01\x00\x01O\x01\x01\x27\x10E";
        let Err(Failure::Refused(fault)) = statements(rt.alloc(), unbalanced) else {
            return Err(Fail::new("not refused"));
        };
        let notice = fault.notice();
        assert_eq!(rt; (notice.number, notice.place), (8, 0));
        let line = format!(in rt.alloc(); "{fault}")?;
        assert_eq!(rt; line.as_str(), "R 8 0");
        let flow_based =
            b"H\x00\x00\x00\x07\x01\x01Z\x00\x00\x03\xe8\x00\x00\x00\x00L\x01\x00\x01O\x01\x01\x27\x10E";
        assert_eq!(rt;
            statements(rt.alloc(), flow_based).err(),
            Some(Failure::Unbuilt)
        );
        Ok(())
    }
}
