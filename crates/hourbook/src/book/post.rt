//! Posting what was settled.
ghost use Rattle.std.specs.Prelude.{◌≡◌};
ghost use Rattle.hourbook.specs.Calls.{post_judged};
ghost use Rattle.hourbook.specs.Moves.{Moved};

use crate::book::entries::used_entries;
use crate::book::fault::BookFault;
use crate::book::{OpenBook, Refusal, RestingBook};
use crate::entry::row::Row;

impl OpenBook {
    // Whether there is something to post.
    fn judge_post(&self, memory: &[Row]) -> Result<(), BookFault>
        ensures { result ≡ post_judged self.now.used memory.now self.now.settled }
    {
        used_entries(memory, self.used)?;
        if self.settled.is_empty() {
            return Err(BookFault::Nothing);
        }
        Ok(())
    }

    // Makes the pending entries count.
    pub(crate) fn post(self, memory: &[Row]) -> Result<RestingBook, Refusal<OpenBook>>
        ensures { Moved (post_judged self.used memory.now self.settled) self (λ b. b.used ≡ self.used) result }
    {
        if let Err(fault) = self.judge_post(memory) {
            return Err(Refusal { book: self, fault });
        }
        Ok(RestingBook { used: self.used })
    }
}
