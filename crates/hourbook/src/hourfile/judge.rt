//! Whether an hour file is lawful.
//!
//! Each rule is tried over the whole file before the next, and a fault tells of the first rule that is broken.
ghost use Rattle.std.specs.Prelude.{◌≡◌, ◌<◌, IfErr, Some, MatchOption, MatchResult};
ghost use Rattle.hourbook.specs.Encoding.{Begins};
ghost use Rattle.hourbook.specs.FileFaults.{number_of, place_of};
ghost use Rattle.hourbook.specs.Heading.{Heads};
ghost use Rattle.hourbook.specs.declared.hourfile.«record».Header.{Header as Headed};
ghost use Rattle.hourbook.specs.declared.hourfile.«record».Record.TheVariants.{Header as RecordHeader};
ghost use Rattle.hourbook.specs.Lawful.{method_of};
ghost use Rattle.hourbook.specs.LawfulFile.{FirstBroken, Formed, LawfulFile};
ghost use Rattle.hourbook.specs.Counting.{Counted, Miscounts};
ghost use Rattle.hourbook.specs.Naming.{NamesBroken, NamesKept, census_lines};
ghost use Rattle.hourbook.specs.Numbering.{Numbered, lines_of};
ghost use Rattle.hourbook.specs.Passes.{AllRead, Unreads};
ghost use Rattle.hourbook.specs.Ranging.{OutOfRange, Ranged};
ghost use Rattle.hourbook.specs.Sequence.{Disordered, WellOrdered};
ghost use Rattle.hourbook.specs.Tallies.{Furnished, WithinLimits};
ghost use Rattle.hourbook.specs.Wholeness.{AllContribute, AllOwned, NoneContributes, NotOwned};

use crate::hourfile::census::Census;
use crate::hourfile::fault::FileFault;
use crate::hourfile::method::Method;
use crate::hourfile::names::Names;
use crate::hourfile::order::Phase;
use crate::hourfile::ranges::Ranges;
use crate::hourfile::record::{Header, first_record};
use crate::hourfile::records::WholeRecords;
use crate::hourfile::rule::follow;
use crate::hourfile::tally::Tally;
use crate::hourfile::wholeness::{Contributions, Keys, add_up};

// Allocates nothing, so that no fault is for want of memory.
pub(crate) fn judge(bytes: &[u8]) -> Result<Census, FileFault>
    ensures rules { MatchResult result (LawfulFile bytes.now) (FirstBroken bytes.now) }
    ensures heads { MatchResult result (Heads bytes.now) (λ e. 0 < number_of e) }
{
    let census = formed(bytes)?;
    names(bytes, census)?;
    contributions(bytes, census)?;
    keys(bytes, census)?;
    Ok(census)
}

// The records are whole, in order, not too many or too few, and in their ranges.
fn formed(bytes: &[u8]) -> Result<Census, FileFault>
    ensures rules { MatchResult result (Formed bytes.now) (FirstBroken bytes.now) }
    ensures heads { MatchResult result (Heads bytes.now) (λ e. 0 < number_of e) }
{
    whole(bytes)?;
    let header = order(bytes)?;
    let tally = counts(bytes, header.method())?;
    let method = ranges(bytes, header)?;
    Ok(Census::new(header, method, tally))
}

// Every kind is known, and no body is cut short.
fn whole(bytes: &[u8]) -> Result<(), FileFault>
    ensures rule { MatchResult result (λ _. AllRead bytes.now) (Unreads bytes.now) }
    ensures number { IfErr result (λ e. number_of e ≡ 1) }
{
    for (before, record) in WholeRecords::new(bytes).enumerate() {
        // no `map_err` and `?`: tried, and the proof of what the fault tells did not close
        let Ok(_) = record else {
            return Err(FileFault::Unread { place: before + 1 });
        };
    }
    Ok(())
}

// The records stand in order, so that the first is the header.
fn order(bytes: &[u8]) -> Result<Header, FileFault>
    ensures rule { MatchResult result (WellOrdered bytes.now) (Disordered bytes.now) }
    ensures number { MatchResult result (λ h. Begins bytes.now (RecordHeader h)) (λ e. number_of e ≡ 2) }
{
    let phase = follow(bytes, Phase::Start)?;
    if phase != Phase::Done {
        return Err(FileFault::Order { place: 0 });
    }
    leading_header(bytes).ok_or(FileFault::Order { place: 0 })
}

fn leading_header(bytes: &[u8]) -> Option<Header>
    ensures { MatchOption result ((h : Headed) → Begins bytes.now (RecordHeader h) → ⊥) (λ h. Begins bytes.now (RecordHeader h)) }
{
    first_record(bytes)?.header()
}

// No kind comes too often, and none is missing.
fn counts(bytes: &[u8], method: Option<Method>) -> Result<Tally, FileFault>
    ensures rule { MatchResult result (Counted bytes.now method) (Miscounts bytes.now method) }
    ensures limits { MatchResult result (λ t. WithinLimits t × Furnished t method) (λ e. number_of e ≡ 3) }
{
    let tally = follow(bytes, Tally::new())?;
    if !tally.suffices(method) {
        return Err(FileFault::Count { place: 0 });
    }
    Ok(tally)
}

// Every number lies in its range. The header, which has the method's number, is the first record.
fn ranges(bytes: &[u8], header: Header) -> Result<Method, FileFault>
    ensures rule { MatchResult result (Ranged bytes.now header) (OutOfRange bytes.now header) }
    ensures number { MatchResult result (λ m. method_of header.method ≡ Some m) (λ e. number_of e ≡ 4) }
{
    let method = header.method().ok_or(FileFault::Range { place: 1 })?;
    follow(bytes, Ranges { method })?;
    Ok(method)
}

// Every zone, line and leg that is named is there.
fn names(bytes: &[u8], census: Census) -> Result<(), FileFault>
    ensures rule { MatchResult result (λ _. NamesKept bytes.now census) (NamesBroken bytes.now census) }
    ensures number { IfErr result (λ e. number_of e ≡ 5) }
{
    follow(bytes, Names::new(census))?;
    Ok(())
}

// Every line has a leg that contributes.
fn contributions(bytes: &[u8], census: Census) -> Result<(), FileFault>
    ensures rule { MatchResult result (λ _. AllContribute bytes.now (census_lines census)) (NoneContributes bytes.now (census_lines census)) }
    ensures number { IfErr result (λ e. (number_of e ≡ 6) × Numbered (lines_of census.method census.zones census.borders) (place_of e)) }
{
    add_up::<Contributions>(bytes, census.lines())
}

// Every leg is owned whole.
fn keys(bytes: &[u8], census: Census) -> Result<(), FileFault>
    ensures rule { MatchResult result (λ _. AllOwned bytes.now census.legs) (NotOwned bytes.now census.legs) }
    ensures number { IfErr result (λ e. (number_of e ≡ 7) × Numbered census.legs (place_of e)) }
{
    add_up::<Keys>(bytes, census.legs)
}

#[cfg(test)]
mod tests {
    use super::*;
    use std::alloc::{AllocError, Global};
    use std::test::Fail;

    fn fault(bytes: &[u8]) -> Option<FileFault> {
        judge(bytes).err()
    }

    // A flow-based file: its zones at one price, then the rest.
    fn file(heap: Global, zones: usize, price: i32, rest: &[u8]) -> Result<Vec<u8>, AllocError> {
        let mut bytes = Vec::new(heap);
        bytes.extend_from_slice(b"H\x00\x00\x00\x01\x01\x01")?;
        // so many times, which index no list
        for _ in 0..zones {
            bytes.push(b'Z')?;
            bytes.extend_from_slice(&price.to_be_bytes())?;
            bytes.extend_from_slice(&[0; 4])?;
        }
        bytes.extend_from_slice(rest)?;
        Ok(bytes)
    }

    #[test]
    fn whole_and_in_order(rt: HostRuntime) {
        assert_eq!(rt;
            fault(b"H\x00\x00\x00\x01\x01\x01Z\x00\x00"),
            Some(FileFault::Unread { place: 2 })
        );
        assert_eq!(rt; fault(b""), Some(FileFault::Order { place: 0 }));
        assert_eq!(rt;
            fault(b"H\x00\x00\x00\x01\x01\x01"),
            Some(FileFault::Order { place: 0 })
        );
        assert_eq!(rt;
            fault(b"H\x00\x00\x00\x01\x01\x01EE"),
            Some(FileFault::Order { place: 3 })
        );
    }

    #[test]
    fn counted_and_in_range(rt: HostRuntime) -> Result<(), Fail> {
        let bare = Some(FileFault::Contribution { line: 1 });
        assert_eq!(rt; fault(&file(rt.alloc(), 16, 0, b"E")?), bare);
        assert_eq!(rt;
            fault(&file(rt.alloc(), 17, 0, b"E")?),
            Some(FileFault::Count { place: 18 })
        );
        assert_eq!(rt; fault(&file(rt.alloc(), 1, 500_000, b"E")?), bare);
        assert_eq!(rt;
            fault(&file(rt.alloc(), 1, 500_001, b"E")?),
            Some(FileFault::Range { place: 2 })
        );
        Ok(())
    }

    #[test]
    fn named_and_owned(rt: HostRuntime) -> Result<(), Fail> {
        let owned = file(rt.alloc(), 1, 0, b"L\x01\x00\x01O\x01\x01\x27\x10E")?;
        assert_eq!(rt; fault(&owned), None);
        let external = file(rt.alloc(), 1, 0, b"L\x01\x00\x01P\x01\x01\x00\x00E")?;
        assert_eq!(rt; fault(&external), Some(FileFault::Name { place: 4 }));
        let short = file(rt.alloc(), 1, 0, b"L\x01\x00\x01O\x01\x01\x27\x0fE")?;
        assert_eq!(rt; fault(&short), Some(FileFault::Keys { leg: 1 }));
        Ok(())
    }
}
