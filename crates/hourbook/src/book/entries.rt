//! The entries of a book in the memory that a call is handed.
ghost use Rattle.std.specs.Prelude.{◌≡◌, ◌<◌, ◌≤◌, length, take, MatchResult};
ghost use Rattle.hourbook.specs.declared.book.fault.BookFault.TheVariants.{Entries};

use crate::book::fault::BookFault;
use crate::entry::row::Row;

// The first `used` places of memory, where it has so many.
pub(crate) fn used_entries(memory: &[Row], used: usize) -> Result<&[Row], BookFault>
    ensures { MatchResult result
        (λ es. (used ≤ length memory.now) × (es.now ≡ take used memory.now))
        (λ fault. (length memory.now < used) × (fault ≡ Entries)) }
{
    memory.get(..used).ok_or(BookFault::Entries)
}
