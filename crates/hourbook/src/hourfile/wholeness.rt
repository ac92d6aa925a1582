//! Rules of what the records of an hour file add up to, for each line or leg.
ghost use Rattle.std.specs.Prelude.{◌≡◌, ◌↔◌, ℕ, ◌<◌, ◌≤◌, min, IsTrue, MatchResult};
ghost use Rattle.hourbook.specs.Wholeness.{AllAddUp, FirstShort, SumsOf, contribution_to, given, key_to};
ghost use Rattle.hourbook.specs.declared.hourfile.fault.FileFault.{FileFault as Fault};
ghost use Rattle.hourbook.specs.declared.hourfile.fault.FileFault.TheVariants.{Contribution, Keys as KeysFault};
ghost use Rattle.hourbook.specs.declared.hourfile.«record».Record.{Record as AnyRecord};

use crate::hourfile::fault::FileFault;
use crate::hourfile::record::Record;
use crate::hourfile::records::Records;
use crate::hourfile::sums::Sums;

// What the owners' keys of a leg add to.
const WHOLE: u16 = 10_000;

pub(crate) trait SumRule {
    // What a record adds to the sum of a number.
    ghost adds: { ℕ → AnyRecord → ℕ };

    ghost suffices: { ℕ → Type 0 };

    // What is wrong with a number whose sum does not suffice.
    ghost fault: { ℕ → Fault };

    // The number that a record adds to, and how much.
    fn part(record: &Record) -> Option<(u8, u16)>
        ensures { (n : ℕ) → adds n «record».now ≡ given result n };

    // A sum stops at the largest u16.
    fn is_enough(sum: u16) -> bool
        ensures { (s : ℕ) → sum ≡ min s 65535 → (IsTrue result ↔ suffices s) };

    fn fault_at(number: usize) -> FileFault
        ensures { result ≡ fault number };
}

// Every line has a leg that contributes.
pub(crate) struct Contributions;

impl SumRule for Contributions {
    ghost adds = { contribution_to };

    ghost suffices = { λ s. 0 < s };

    ghost fault = { Contribution };

    fn part(record: &Record) -> Option<(u8, u16)> {
        record.leg().map(|leg| (leg.line, leg.contribution))
    }

    fn is_enough(sum: u16) -> bool {
        sum > 0
    }

    fn fault_at(number: usize) -> FileFault {
        FileFault::Contribution { line: number }
    }
}

// Every leg is owned whole.
pub(crate) struct Keys;

impl SumRule for Keys {
    ghost adds = { key_to };

    ghost suffices = { λ s. s ≡ 10000 };

    ghost fault = { KeysFault };

    fn part(record: &Record) -> Option<(u8, u16)> {
        record.owner().map(|owner| (owner.leg, owner.key))
    }

    fn is_enough(sum: u16) -> bool {
        sum == WHOLE
    }

    fn fault_at(number: usize) -> FileFault {
        FileFault::Keys { leg: number }
    }
}

fn sums_of<R: SumRule>(bytes: &[u8]) -> Sums
    ensures { SumsOf R.adds bytes.now result.amounts }
{
    let mut sums = Sums::new();
    for record in Records::new(bytes) {
        if let Some((number, amount)) = R::part(&record) {
            sums.add(number, amount);
        }
    }
    sums
}

// Whether the sum of each number from 1 to the last suffices, or the fault of the first that does not. The limit is that of
// `Sums`, and no type carries it: the last is a number of lines once, and of legs once.
pub(crate) fn add_up<R: SumRule>(bytes: &[u8], last: u8) -> Result<(), FileFault>
    requires { last ≤ 64 }
    ensures { MatchResult result (λ _. AllAddUp R.adds R.suffices bytes.now last) (FirstShort R.adds R.suffices R.fault bytes.now last) }
{
    let sums = sums_of::<R>(bytes);
    // the numbers of the lines or legs, which index no list
    for number in 1..=last {
        if !R::is_enough(sums.get(number)) {
            return Err(R::fault_at(usize::from(number)));
        }
    }
    Ok(())
}
