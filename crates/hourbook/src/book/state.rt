//! Stating what an owner's entries are.
ghost use Rattle.std.specs.Prelude.{◌≡◌, ◌≤◌, length, is_ok, IfOk, if◌then◌else◌};
ghost use Rattle.hourbook.specs.Calls.{statement_judged};
ghost use Rattle.hourbook.specs.StatementAnswers.{text, over};

use crate::book::RestingBook;
use crate::book::entries::used_entries;
use crate::book::fault::BookFault;
use crate::book::statement::Statement;
use crate::entry::row::Row;

// Owners are numbered from 1.
const OWNERS: u8 = 64;

impl RestingBook {
    // Writes the statement of an owner into the first bytes of `out`, and answers how many. Later bytes stay.
    pub(crate) fn statement(
        &self,
        memory: &[Row],
        owner: u8,
        out: &mut [u8],
    ) -> Result<usize, BookFault>
        ensures answer { result ≡ statement_judged self.now.used memory.now owner (length out.old) }
        ensures count { IfOk result (λ n. n ≡ length (text owner self.now.used memory.now)) }
        ensures within { IfOk result (λ n. n ≤ length out.new) }
        ensures memory { out.new ≡ (if is_ok result then over (text owner self.now.used memory.now) out.old else out.old) }
    {
        let entries = used_entries(memory, self.used)?;
        if !(1..=OWNERS).contains(&owner) {
            return Err(BookFault::Owner);
        }
        let statement = Statement::new(entries, owner);
        // Where even the longest text of so many entries has room, its bytes aren't counted.
        if out.len() < statement.most_bytes() && out.len() < statement.len() {
            return Err(BookFault::Statement);
        }
        Ok(statement.write(out))
    }
}
