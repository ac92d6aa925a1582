//! Settling: judged whole before anything is written.
ghost use Rattle.std.specs.Prelude.{sum, ◌≡◌, ◌+◌, ◌*◌, ◌<◌, ◌≤◌, ◌++◌, map, length, pos, IfOk, vec_len, unsigned_abs};
ghost use Rattle.sharing.specs.Shares.{shares};
ghost use Rattle.sharing.specs.Writes.{written};
ghost use Rattle.hourbook.specs.Worths.{weights};
ghost use Rattle.hourbook.specs.Settled.{judged, Accepted, credit, work_of, paid, credits_of, needed};

use crate::entry::credit::{Credit, Direction, Origin};
use crate::entry::row::Row;
use crate::hourfile::ownership::Ownership;
use crate::region::meaning::Region;
use crate::settlement::amount::{amount_of, share_amount};
use crate::settlement::deal::deal_lines;
use crate::settlement::fault::SettlementFault;
use crate::settlement::income::income;
use crate::settlement::weights::{weigh_all, write_weights};
use sharing::{Amount, LARGEST_AMOUNT, LARGEST_WEIGHT_SUM, Plain};

// The income of a region that can be settled with this table and so many places of work memory.
// Region and table stay two parameters, as they are lent to the book's call: a struct of both would be taken apart at once,
// since a clause names the one or the other.
pub(crate) fn judge<R: Region>(
    region: &R,
    table: &Ownership,
    room: usize,
) -> Result<i64, SettlementFault>
    ensures answer { result ≡ judged (R.meaning region.now) (vec_len table.now.lines) room }
    ensures facts { IfOk result (Accepted (R.meaning region.now) (vec_len table.now.lines) room) }
{
    region.verdict()?;
    let lines = region.line_count();
    if lines != table.lines.len() {
        return Err(SettlementFault::Lines);
    }
    if room < 2 * lines {
        return Err(SettlementFault::Work);
    }
    let income = income(region);
    if income.unsigned_abs() > LARGEST_AMOUNT {
        return Err(SettlementFault::Limit);
    }
    if weigh_all(region) > LARGEST_WEIGHT_SUM {
        return Err(SettlementFault::Limit);
    }
    Ok(income)
}

// How many entries an income takes.
pub(crate) fn entries_needed(income: i64, table: &Ownership) -> usize
    ensures value { result ≡ needed income table.now }
    ensures few { result ≤ 128 }
{
    if income < 0 {
        table.owners.len()
    } else {
        table.row_count()
    }
}

// Writes all weights, and then the lines' shares of `amount`.
fn fill_work<R: Region>(region: &R, amount: Amount, work: &mut [i64])
    requires light { sum (weights (R.meaning region.now)) ≤ 4000000000 }
    requires room { 2 * length (R.meaning region.now).lines ≤ length work.old }
    ensures { work.new ≡ written work.old 0 (map pos (weights (R.meaning region.now) ++ shares amount.cents (weights (R.meaning region.now)))) }
{
    let rows = write_weights(region, work);
    share_amount(amount, &rows, &Plain, &mut work[region.line_count()..]);
}

// Credits the owners: an income by the lines' shares, a loss in equal parts.
fn pay(income: i64, parts: &[i64], origin: Origin, table: &Ownership, out: &mut [Row])
    requires small { unsigned_abs income ≤ 2000000000 }
    requires parts { sum (map unsigned_abs parts.now) ≤ 2000000000 }
    requires long { vec_len table.now.lines ≤ length parts.now }
    requires room { needed income table.now ≤ length out.old }
    ensures { out.new ≡ written out.old 0 (paid origin income (map unsigned_abs parts.now) table.now.lines.items table.now.owners.items) }
{
    if income < 0 {
        let credit = Credit {
            origin,
            line: 0,
            leg: 0,
            direction: Direction::Borne,
        };
        share_amount(amount_of(income), &table.owners, &credit, out);
    } else {
        deal_lines(parts, origin, &table.lines, out);
    }
}

// Writes what `judge` accepted: weights and shares into work memory, and the credits into `out`, from the front on.
pub(crate) fn write<R: Region>(
    region: &R,
    table: &Ownership,
    income: i64,
    origin: Origin,
    work: &mut [i64],
    out: &mut [Row],
)
    requires accepted { Accepted (R.meaning region.now) (vec_len table.now.lines) (length work.old) income }
    requires room { needed income table.now ≤ length out.old }
    ensures work { work.new ≡ written work.old 0 (work_of (R.meaning region.now)) }
    ensures out { out.new ≡ written out.old 0 (credits_of origin (R.meaning region.now) table.now) }
{
    let lines = table.lines.len();
    fill_work(region, amount_of(income.max(0)), work);
    pay(income, &work[lines..2 * lines], origin, table, out);
}
