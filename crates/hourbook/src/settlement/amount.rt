//! Amounts within the limits of sharing, so that none is refused.
ghost use Rattle.std.specs.Prelude.{sum, ◌≡◌, ◌≤◌, map, length, unsigned_abs};
ghost use Rattle.sharing.specs.Shares.{shares};
ghost use Rattle.sharing.specs.Writes.{written, cells};

use sharing::{Amount, Keeping, Weighted, share};

// The amount that a number of cents is, of either sign.
pub(crate) fn amount_of(cents: i64) -> Amount
    requires { unsigned_abs cents ≤ 2000000000 }
    ensures { result.cents ≡ unsigned_abs cents }
{
    Amount::try_from(cents.unsigned_abs()).unwrap()
}

// Shares an amount over rows by weight. What `keeper` keeps of each stands in `out`, from the front on.
pub(crate) fn share_amount<X: Copy, R: Weighted, K: Keeping<R, X>>(
    amount: Amount,
    rows: &[R],
    keeper: &K,
    out: &mut [X],
)
    requires light { sum (map R.Weighted.weighs rows.now) ≤ 4000000000 }
    requires few { length rows.now ≤ 4000000000 }
    requires room { length rows.now ≤ length out.old }
    ensures { out.new ≡ written out.old 0 (cells (K.Keeping.cell keeper.now) rows.now (shares amount.cents (map R.Weighted.weighs rows.now))) }
{
    share(u64::from(amount.cents()), rows, keeper, out, 0).unwrap();
}
