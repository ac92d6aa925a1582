//! The weights of a region's lines.
ghost use Rattle.std.specs.Prelude.{sum, ◌≡◌, ◌≤◌, map, length, pos};
ghost use Rattle.sharing.specs.Writes.{written};
ghost use Rattle.hourbook.specs.Meaning.{LineBounded};
ghost use Rattle.hourbook.specs.Worths.{weight, weights};
ghost use Rattle.hourbook.specs.LineRows.{line_rows_from};

use crate::region::meaning::Region;
use crate::region::rows::Line;
use crate::settlement::line_row::LineRow;
use arrayvec::ArrayVec;

impl Line {
    // What flow times spread is worth, in cents, rounded up; against the spread it weighs as much as with it.
    fn weight(&self) -> u64
        requires { LineBounded self.now }
        ensures value { result ≡ weight self.now }
        ensures bound { result ≤ 20000000000000 }
    {
        let whole = self.flow.unsigned_abs() * u64::from(self.spread.unsigned_abs());
        whole.div_ceil(100_000)
    }
}

// What all lines weigh.
pub(crate) fn weigh_all<R: Region>(region: &R) -> u64
    ensures { result ≡ sum (weights (R.meaning region.now)) }
{
    region.lines().map(|line| line.weight()).sum()
}

// Writes the lines' weights to the first places of `work`, and answers the lines as rows to share over.
pub(crate) fn write_weights<R: Region>(region: &R, work: &mut [i64]) -> ArrayVec<LineRow, 64>
    requires { length (R.meaning region.now).lines ≤ length work.old }
    ensures rows { result.items ≡ line_rows_from 1 (weights (R.meaning region.now)) }
    ensures work { work.new ≡ written work.old 0 (map pos (weights (R.meaning region.now))) }
{
    let mut rows = ArrayVec::new();
    // By place, since a proof knows nothing of a slice that was written through a zip. Casts, since with `try_from` and
    // `cast_signed` the loop's proof did not close.
    for (k, line) in region.lines().enumerate() {
        let weight = line.weight();
        rows.push(LineRow {
            number: (k + 1) as u8,
            weight,
        });
        work[k] = weight as i64;
    }
    rows
}
