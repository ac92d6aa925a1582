//! A leg with its owners.
ghost use Rattle.std.specs.Prelude.{◌≡◌, ◌≤◌, ◌≢◌, MatchOption, vec_len};
ghost use Rattle.hourbook.specs.Owners.{key_sum};

use crate::hourfile::owner::OwnerRow;
use sharing::{Receiving, Weighted, weigh};

const WHOLE: u64 = 10_000;

const MOST_ROWS: usize = 128;

// One cable or circuit of a line. The keys of its owners, in file order, add to 10,000.
#[derive(Drop)]
pub(crate) struct OwnedLeg {
    pub(crate) number: u8,
    pub(crate) contribution: u16,
    pub(crate) owners: Vec<OwnerRow>,
    ghost whole: { key_sum owners.items ≡ 10000 },
    ghost few: { vec_len owners ≤ 128 },
}

impl OwnedLeg {
    ghost use Rattle.hourbook.specs.Rising.{owns_leg};

    // A leg whose keys add to 10,000, and none of others.
    pub(crate) fn new(number: u8, contribution: u16, owners: Vec<OwnerRow>) -> Option<OwnedLeg>
        ensures { MatchOption result (vec_len owners ≤ 128 → key_sum owners.items ≢ 10000) (λ l. (l.number ≡ number) × (l.contribution ≡ contribution) × (l.owners.items ≡ owners.items)) }
    {
        let sum = weigh(owners.as_slice())?;
        if sum != WHOLE || owners.len() > MOST_ROWS {
            return None;
        }
        Some(OwnedLeg {
            number,
            contribution,
            owners,
        })
    }

    pub(crate) fn is_owned_by(&self, owner: u8) -> bool
        ensures { result ≡ owns_leg owner self.now }
    {
        self.owners.iter().any(|row| row.owner == owner)
    }
}

impl Weighted for OwnedLeg {
    ghost weighs = { λ x. x.contribution };

    fn weight(&self) -> u64 {
        u64::from(self.contribution)
    }
}

impl Receiving for OwnedLeg {
    ghost receives = { λ x. x.number };

    fn receiver(&self) -> u8 {
        self.number
    }
}
