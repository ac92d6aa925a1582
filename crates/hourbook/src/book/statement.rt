//! An owner's statement.
ghost use Rattle.std.specs.Prelude.{◌≡◌, ◌+◌, ◌*◌, ◌^◌, ◌-◌, ◌≤◌, min, length};
ghost use Rattle.hourbook.specs.Wrote.{Wrote};
ghost use Rattle.hourbook.specs.Statements.{balance_of, own, statement_of};

use crate::book::sink::{Count, Page, Sink};
use crate::book::text::put_line;
use crate::entry::entry::Entry;
use crate::entry::row::Row;
use std::marker::Model;

// What the owner's entries add to. The contract also says how long their statement is at most.
fn balance(entries: &[Row], owner: u8) -> i64
    requires { length entries.now ≤ 4294967295 }
    ensures value { result ≡ balance_of (own owner entries.now) }
    ensures short { length (statement_of owner (own owner entries.now)) ≤ 37 * length entries.now + 29 }
{
    let mut sum: i64 = 0;
    for row in entries {
        let entry = Entry::from(row);
        if entry.owner == owner {
            sum += i64::from(entry.amount.get());
        }
    }
    sum
}

// The owner's lines among the entries, under the owner and above what they add to. A clause sees the text.
#[derive(Drop)]
pub(crate) struct Statement<'a> {
    owner: u8,
    entries: &'a [Row],
    balance: i64,
    ghost short: { length (statement_of owner (own owner entries.now)) ≤ 37 * length entries.now + 29 },
    ghost counted: { length entries.now ≤ 4294967295 },
}

impl<'a> Model for Statement<'a> {
    ghost use Rattle.std.specs.Prelude.{◌≡◌, ℕ, List};
    ghost use Rattle.hourbook.specs.Statements.{balance_of, own, statement_of};

    ghost Value = { List ℕ };

    ghost view = { λ s. statement_of s.owner (own s.owner s.entries.now) };

    ghost invariant = { λ s. s.balance ≡ balance_of (own s.owner s.entries.now) };
}

impl<'a> Statement<'a> {
    pub(crate) fn new(entries: &'a [Row], owner: u8) -> Statement<'a>
        requires { length entries.now ≤ 4294967295 }
        ensures { result ≡ statement_of owner (own owner entries.now) }
    {
        Statement {
            owner,
            entries,
            balance: balance(entries, owner),
        }
    }

    // The text, for whatever takes it. An `if` in the loop: over a filter, the check states no invariant here, where the
    // sink is a type parameter.
    fn put<S: Sink>(&self, sink: &mut S)
        requires { S.has_room sink.old (length self.now) }
        ensures { S.took sink.old self.now sink.new }
    {
        put_line(sink, b'O', &[i64::from(self.owner)]);
        for row in self.entries {
            let entry = Entry::from(row);
            if entry.owner == self.owner {
                put_line(sink, entry.kind.letter(), &entry.numbers());
            }
        }
        put_line(sink, b'B', &[self.balance]);
    }

    // The text has no more bytes, whatever its numbers are. A line of an entry has at most 37: the letter, ten digits of the
    // hour, three each of region, line and leg, eleven of the amount with its sign, five spaces and the end. The two others
    // have together at most 29.
    pub(crate) fn most_bytes(&self) -> usize
        ensures { length self.now ≤ result }
    {
        37 * self.entries.len() + 29
    }

    // How many bytes the text has.
    pub(crate) fn len(&self) -> usize
        ensures { result ≡ min (length self.now) (2 ^ 64 - 1) }
    {
        let mut count = Count::default();
        self.put(&mut count);
        count.bytes
    }

    // Writes the text into the first bytes of `out`, and says how many.
    pub(crate) fn write(&self, out: &mut [u8]) -> usize
        requires { length self.now ≤ length out.old }
        ensures { Wrote out.old out.new 0 result self.now }
    {
        let mut page = Page::new(out);
        self.put(&mut page);
        page.filled()
    }
}
