//! A rule that the records of an hour file keep one after another.
ghost use Rattle.std.specs.Prelude.{◌≡◌, ◌↔◌, ℕ, ⊤, IfOk, IsTrue, MatchResult};
ghost use Rattle.std.specs.Bool.{OnFalse, OnTrue};
ghost use Rattle.hourbook.specs.Passes.{BrokenAt, KeptTo};
ghost use Rattle.hourbook.specs.declared.hourfile.fault.FileFault.{FileFault as Fault};
ghost use Rattle.hourbook.specs.declared.hourfile.«record».Record.{Record as AnyRecord};

use crate::hourfile::fault::FileFault;
use crate::hourfile::record::Record;
use crate::hourfile::records::Records;

// What the records so far have said, and whether the next may follow them.
pub(crate) trait Rule: Drop {
    // Holds of each state that a record is tried in.
    ghost ready: { Self → Type 0 } = { λ _. ⊤ };

    ghost passes: { Self → AnyRecord → Type 0 };

    // The state after a record that passes.
    ghost after: { Self → AnyRecord → Self };

    // What is wrong where the record at this place does not pass.
    ghost fault: { ℕ → Fault };

    fn fault_at(place: usize) -> FileFault
        ensures { result ≡ fault place };

    // Takes in a record that passes. Another leaves the state as it was. A `bool`, since nothing stands beside the answer.
    fn admits(&mut self, record: &Record) -> bool
        requires { ready self.old }
        ensures test { IsTrue result ↔ passes self.old «record».now }
        ensures yes { OnTrue result (self.new ≡ after self.old «record».now) }
        ensures no { OnFalse result (self.new ≡ self.old) }
        ensures ready { ready self.new };
}

// The rule after all records, or the fault of the first that it does not admit. Places count from 1.
pub(crate) fn follow<R: Rule>(bytes: &[u8], mut rule: R) -> Result<R, FileFault>
    requires { R.ready rule }
    ensures first { MatchResult result (KeptTo R.passes R.after rule bytes.now) (BrokenAt R.passes R.after R.fault rule bytes.now) }
    ensures ready { IfOk result R.ready }
{
    for (before, record) in Records::new(bytes).enumerate() {
        if !rule.admits(&record) {
            return Err(R::fault_at(before + 1));
        }
    }
    Ok(rule)
}
