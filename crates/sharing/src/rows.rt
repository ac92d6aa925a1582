//! The rows that an amount is shared over.
ghost use Rattle.std.specs.Prelude.{sum, ◌≡◌, ℕ, ◌+◌, ◌<◌, ◌≤◌, map, MatchOption};

// A row that tells its weight. Every such row can be shared over.
pub trait Weighted {
    ghost weighs: { Self → ℕ };

    fn weight(&self) -> u64
        ensures { result ≡ weighs self.now };
}

// A row that also tells the number of its receiver.
pub trait Receiving: Weighted {
    ghost receives: { Self → ℕ };

    fn receiver(&self) -> u8
        ensures { result ≡ receives self.now };
}

// Rows whose counted weights add to more are not shared over. No type carries this: each contract says it of the rows that
// it is given, and `weigh` answers a number that callers compare.
pub const LARGEST_WEIGHT_SUM: u64 = 4_000_000_000;

// A sum with one more weight, unless it is then above `LARGEST_WEIGHT_SUM`.
fn added(sum: u64, weight: u64) -> Option<u64>
    ensures { MatchOption result (4000000000 < sum + weight) (λ n. (n ≡ sum + weight) × (n ≤ 4000000000)) }
{
    sum.checked_add(weight)
        .filter(|sum| *sum <= LARGEST_WEIGHT_SUM)
}

// The sum of the weights, unless it is above `LARGEST_WEIGHT_SUM`.
#[tactic(auto, using(crate::proofs::Totals::total_next))]
pub fn weigh<R: Weighted>(rows: &[R]) -> Option<u64>
    ensures { MatchOption result (4000000000 < sum (map R.weighs rows.now)) (λ n. (n ≡ sum (map R.weighs rows.now)) × (n ≤ 4000000000)) }
{
    let mut sum = 0;
    for row in rows {
        sum = added(sum, row.weight())?;
    }
    Some(sum)
}
