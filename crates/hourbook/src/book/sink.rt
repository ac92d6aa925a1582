//! What takes the bytes of a text: a count of them, or lent memory.
ghost use Rattle.std.specs.Prelude.{◌≡◌, ℕ, ◌+◌, ◌≤◌, List, length, ⊤};
ghost use Rattle.sharing.specs.Writes.{written};
ghost use Rattle.hourbook.specs.Sinks.{SinkLaws};
ghost use Rattle.hourbook.specs.SinkModels.{counts_any, Counted, count_laws, fits, Filled, page_laws};

pub(crate) trait Sink {
    // Whether so many bytes more find room.
    ghost has_room: { Self → ℕ → Type 0 };

    // The sink before, the bytes, and the sink after.
    ghost took: { Self → List ℕ → Self → Type 0 };

    fn put(&mut self, bytes: &[u8])
        requires { has_room self.old (length bytes.now) }
        ensures { took self.old bytes.now self.new };

    ghost laws: { SinkLaws has_room took };
}

// How many bytes a text has. A count stops at the greatest number, which is more than any memory has.
#[derive(Clone, Copy, Debug, Default, PartialEq, Eq)]
pub(crate) struct Count {
    pub(crate) bytes: usize,
}

impl Sink for Count {
    ghost has_room = { counts_any };

    ghost took = { Counted };

    ghost laws = { count_laws };

    fn put(&mut self, bytes: &[u8]) {
        self.bytes = self.bytes.saturating_add(bytes.len());
    }
}

// Lent memory, filled from its first byte on: the book's calls write into no memory of their own. What std writes with may
// fail, and does not say when.
#[derive(Drop)]
pub(crate) struct Page<'a> {
    memory: &'a mut [u8],
    filled: usize,
}

impl<'a> Page<'a> {
    pub(crate) fn new(memory: &'a mut [u8]) -> Page<'a>
        ensures memory { result.memory.ghost_name ≡ memory.entry.ghost_name }
        ensures bytes { result.memory.now ≡ memory.old }
        ensures filled { result.filled ≡ 0 }
    {
        Page { memory, filled: 0 }
    }

    // How many bytes stand.
    pub(crate) fn filled(&self) -> usize
        ensures { result ≡ self.now.filled }
    {
        self.filled
    }
}

// Writes bytes from a place of memory on. One or two, as most are, need no call that copies.
#[tactic(auto, using(crate::proofs::Rest::two_written))]
fn write_at(memory: &mut [u8], at: usize, bytes: &[u8])
    requires { at + length bytes.now ≤ length memory.old }
    ensures { memory.new ≡ written memory.old at bytes.now }
{
    match bytes {
        [one] => memory[at] = *one,
        [one, two] => {
            memory[at] = *one;
            memory[at + 1] = *two;
        }
        _ => memory[at..at + bytes.len()].copy_from_slice(bytes),
    }
}

impl Sink for Page<'_> {
    ghost has_room = { fits };

    ghost took = { Filled };

    ghost laws = { page_laws };

    fn put(&mut self, bytes: &[u8]) {
        let end = self.filled + bytes.len();
        let memory = &mut *self.memory;
        write_at(memory, self.filled, bytes);
        self.filled = end;
    }
}
