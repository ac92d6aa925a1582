//! From the lines' amounts down to the owners' credits.
ghost use Rattle.std.specs.Prelude.{sum, ◌≡◌, ◌≤◌, map, length, unsigned_abs};
ghost use Rattle.sharing.specs.Writes.{written};
ghost use Rattle.sharing.specs.Levels.{dealt};
ghost use Rattle.hourbook.specs.Deals.{leg_deal, line_deal};

use crate::entry::credit::{Credit, Direction, Origin};
use crate::entry::row::Row;
use crate::hourfile::owned_leg::OwnedLeg;
use crate::hourfile::owned_line::OwnedLine;
use crate::settlement::amount::{amount_of, share_amount};
use sharing::{Amount, Plain};

// A leg's amount, credited to its owners by key. Answers how many credits it wrote, from the front of `out` on.
fn deal_leg(amount: Amount, origin: Origin, line: u8, leg: &OwnedLeg, out: &mut [Row]) -> usize
    requires { length (leg_deal origin line amount.cents leg.now) ≤ length out.old }
    ensures memory { out.new ≡ written out.old 0 (leg_deal origin line amount.cents leg.now) }
    ensures count { result ≡ length (leg_deal origin line amount.cents leg.now) }
{
    let credit = Credit {
        origin,
        line,
        leg: leg.number,
        direction: Direction::Received,
    };
    share_amount(amount, &leg.owners, &credit, out);
    leg.owners.len()
}

// A line's amount, shared over its legs by contribution and credited to their owners.
fn deal_line(amount: Amount, origin: Origin, line: &OwnedLine, out: &mut [Row]) -> usize
    requires { length (line_deal origin amount.cents line.now) ≤ length out.old }
    ensures memory { out.new ≡ written out.old 0 (line_deal origin amount.cents line.now) }
    ensures count { result ≡ length (line_deal origin amount.cents line.now) }
{
    // no heap in settling, and a line has at most 64 legs
    let mut parts = [0i64; 64];
    share_amount(amount, &line.legs, &Plain, &mut parts);
    let mut count = 0;
    for (leg, part) in line.legs.iter().zip(&parts) {
        count += deal_leg(
            amount_of(*part),
            origin,
            line.number,
            leg,
            &mut out[count..],
        );
    }
    count
}

// The lines' amounts, credited to the owners of their legs, line by line.
pub(crate) fn deal_lines(
    amounts: &[i64],
    origin: Origin,
    lines: &[OwnedLine],
    out: &mut [Row],
) -> usize
    requires small { sum (map unsigned_abs amounts.now) ≤ 2000000000 }
    requires long { length lines.now ≤ length amounts.now }
    requires room { length (dealt (line_deal origin) (map unsigned_abs amounts.now) lines.now) ≤ length out.old }
    ensures memory { out.new ≡ written out.old 0 (dealt (line_deal origin) (map unsigned_abs amounts.now) lines.now) }
    ensures count { result ≡ length (dealt (line_deal origin) (map unsigned_abs amounts.now) lines.now) }
{
    let mut count = 0;
    for (line, amount) in lines.iter().zip(amounts) {
        count += deal_line(amount_of(*amount), origin, line, &mut out[count..]);
    }
    count
}
