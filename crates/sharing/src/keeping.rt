//! What is kept of a row and its share.
ghost use Rattle.std.specs.Prelude.{◌≡◌, ℕ, pos};

use crate::amount::Amount;

// What is kept of a row and its share, such as the share alone, or an entry that names the row's receiver. No closure:
// `cell` says which value is kept, so that a sharing is exact and asks nothing of its callers.
pub trait Keeping<R, X> {
    ghost cell: { Self → R → ℕ → X };

    fn keep(&self, row: &R, share: Amount) -> X
        ensures { result ≡ cell self.now row.now share.cents };
}

// Keeps the share alone.
#[derive(Clone, Copy, Debug, PartialEq, Eq)]
pub struct Plain;

impl<R> Keeping<R, i64> for Plain {
    ghost cell = { λ _ _ s. pos s };

    fn keep(&self, _row: &R, share: Amount) -> i64 {
        i64::from(share.cents())
    }
}
