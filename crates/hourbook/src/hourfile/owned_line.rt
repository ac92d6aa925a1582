//! A line with its legs.
ghost use Rattle.std.specs.Prelude.{◌≡◌, ◌<◌, ◌≤◌, MatchOption, vec_len};
ghost use Rattle.hourbook.specs.Legs.{contributed};

use crate::hourfile::owned_leg::OwnedLeg;
use sharing::weigh;

const MOST_LEGS: usize = 64;

// Its legs, in rising number, at least one of them with a contribution above 0.
#[derive(Drop)]
pub(crate) struct OwnedLine {
    pub(crate) number: u8,
    pub(crate) legs: Vec<OwnedLeg>,
    ghost few: { vec_len legs ≤ 64 },
    ghost some: { 0 < contributed legs.items },
    ghost light: { contributed legs.items ≤ 4000000000 },
}

impl OwnedLine {
    ghost use Rattle.hourbook.specs.OwnerRows.{line_rows};
    ghost use Rattle.hourbook.specs.Rising.{owns_line};

    // A line with a leg that contributes, and none without. Only its first step is that of `OwnedLeg::new`.
    pub(crate) fn new(number: u8, legs: Vec<OwnedLeg>) -> Option<OwnedLine>
        ensures { MatchOption result (vec_len legs ≤ 64 → 0 < contributed legs.items → contributed legs.items ≤ 4000000000 → ⊥) (λ l. (l.number ≡ number) × (l.legs.items ≡ legs.items)) }
    {
        let sum = weigh(legs.as_slice())?;
        if sum == 0 || legs.len() > MOST_LEGS {
            return None;
        }
        Some(OwnedLine { number, legs })
    }

    pub(crate) fn is_owned_by(&self, owner: u8) -> bool
        ensures { result ≡ owns_line owner self.now }
    {
        self.legs.iter().any(|leg| leg.is_owned_by(owner))
    }

    // How many owner rows its legs have.
    pub(crate) fn row_count(&self) -> usize
        ensures is { result ≡ line_rows self.now }
        ensures few { result ≤ 8192 }
    {
        self.legs.iter().map(|leg| leg.owners.len()).sum()
    }
}
