//! How rows count: each with its weight, or all with 1.
ghost use Rattle.std.specs.Prelude.{◌≡◌, ◌<◌, map, MatchOption};
ghost use Rattle.sharing.specs.Shares.{whole};
ghost use Rattle.sharing.specs.Counts.{Counts, all_count, counting_of, counts_with};

use crate::rows::{LARGEST_WEIGHT_SUM, Weighted, weigh};

// Each row counts with 1, as where all weights are 0, or with its weight; the sum is that of all weights.
#[derive(Clone, Copy, Debug, PartialEq, Eq)]
pub(crate) enum Counting {
    Equal { rows: u64 },
    ByWeight { sum: u64 },
}

impl Counting {
    // How so many rows count whose weights add to `sum`.
    fn new(sum: u64, rows: usize) -> Counting
        ensures { result ≡ counting_of sum rows }
    {
        if sum == 0 {
            Counting::Equal {
                rows: u64::try_from(rows).unwrap(),
            }
        } else {
            Counting::ByWeight { sum }
        }
    }

    // What all rows count.
    pub(crate) fn sum(self) -> u64
        ensures { result ≡ all_count self }
    {
        match self {
            Counting::Equal { rows } => rows,
            Counting::ByWeight { sum } => sum,
        }
    }

    // What a row counts with.
    pub(crate) fn weight<R: Weighted>(self, row: &R) -> u64
        ensures { result ≡ counts_with self (R.weighs row.now) }
    {
        match self {
            Counting::Equal { .. } => 1,
            Counting::ByWeight { .. } => row.weight(),
        }
    }
}

// How the rows count, unless the counted weights add to more than `LARGEST_WEIGHT_SUM`.
pub(crate) fn count<R: Weighted>(rows: &[R]) -> Option<Counting>
    ensures { MatchOption result (4000000000 < whole (map R.weighs rows.now)) (Counts (map R.weighs rows.now)) }
{
    let counting = Counting::new(weigh(rows)?, rows.len());
    (counting.sum() <= LARGEST_WEIGHT_SUM).then_some(counting)
}
