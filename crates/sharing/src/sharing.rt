//! The sharing of an amount.
ghost use Rattle.std.specs.Prelude.{◌≡◌, ◌+◌, ◌<◌, ◌≤◌, map, length, is_ok, IfOk, if◌then◌else◌, OnOk, nat_lt};
ghost use Rattle.sharing.specs.Shares.{whole, shares};
ghost use Rattle.sharing.specs.Counts.{Counts};
ghost use Rattle.sharing.specs.Writes.{written, cells};
ghost use Rattle.sharing.specs.Answers.{judged, verdict};
ghost use Rattle.sharing.specs.Laws.{Fair};

use crate::amount::Amount;
use crate::counting::{Counting, count};
use crate::fault::SharingFault;
use crate::keeping::Keeping;
use crate::rows::Weighted;

// Whether a memory of `size` places has fewer than `rows` from `at` on. In this form no sum overflows.
fn lacks_room(size: usize, at: usize, rows: usize) -> bool
    ensures { result ≡ nat_lt size (at + rows) }
{
    size < at || size - at < rows
}

// The amount, and how the rows count, where nothing speaks against the sharing.
fn judge<R: Weighted>(
    amount: u64,
    rows: &[R],
    size: usize,
    at: usize,
) -> Result<(Amount, Counting), SharingFault>
    ensures answer { verdict result ≡ judged amount (length rows.now) (whole (map R.weighs rows.now)) size at }
    ensures facts { IfOk result (λ p. (p.0.cents ≡ amount) × Counts (map R.weighs rows.now) p.1 × (at + length rows.now ≤ size)) }
{
    if lacks_room(size, at, rows.len()) {
        return Err(SharingFault::Room);
    }
    let amount = Amount::try_from(amount)?;
    let counting = count(rows).ok_or(SharingFault::Limit)?;
    Ok((amount, counting))
}

// Writes what `keeper` keeps of the rows and their shares.
fn spread<X: Copy, R: Weighted, K: Keeping<R, X>>(
    amount: Amount,
    rows: &[R],
    counting: Counting,
    keeper: &K,
    out: &mut [X],
    at: usize,
)
    requires counts { Counts (map R.Weighted.weighs rows.now) counting }
    requires room { at + length rows.now ≤ length out.old }
    ensures memory { out.new ≡ written out.old at (cells (K.Keeping.cell keeper.now) rows.now (shares amount.cents (map R.Weighted.weighs rows.now))) }
    ensures fair { Fair amount.cents (map R.Weighted.weighs rows.now) }
{
    let mut run: u64 = 0;
    // no zip with `iter_mut`, of whose writes a proof knows nothing
    for (i, row) in rows.iter().enumerate() {
        let next = run + counting.weight(row);
        out[at + i] = keeper.keep(row, amount.part(run, next, counting.sum()));
        run = next;
    }
}

// Shares `amount` over the rows by weight. What `keeper` keeps of each row and its share stands in `out` from the
// place `at` on; every other place keeps its contents. A refusal writes nothing. `fair` says what holds of the shares.
// Memory and place stay two parameters: no slice begins at a place past the end, which is refused by 11.
pub fn share<X: Copy, R: Weighted, K: Keeping<R, X>>(
    amount: u64,
    rows: &[R],
    keeper: &K,
    out: &mut [X],
    at: usize,
) -> Result<(), SharingFault>
    ensures answer { result ≡ judged amount (length rows.now) (whole (map R.Weighted.weighs rows.now)) (length out.old) at }
    ensures memory { out.new ≡ (if is_ok result then written out.old at (cells (K.Keeping.cell keeper.now) rows.now (shares amount (map R.Weighted.weighs rows.now))) else out.old) }
    ensures fair { OnOk result (Fair amount (map R.Weighted.weighs rows.now)) }
{
    let (amount, counting) = judge(amount, rows, out.len(), at)?;
    spread(amount, rows, counting, keeper, out, at);
    Ok(())
}
