//! Figures and refusals, run.
ghost use Rattle.std.specs.Prelude.{◌≡◌};

use crate::{LARGEST_AMOUNT, LARGEST_WEIGHT_SUM, Plain, Weighted, share};

// A row that tells its weight and nothing else.
#[derive(Clone, Copy)]
struct Key {
    weight: u64,
}

impl Weighted for Key {
    ghost weighs = { λ k. k.weight };

    fn weight(&self) -> u64 {
        self.weight
    }
}

fn row(weight: u64) -> Key {
    Key { weight }
}

// The number of the refusal, if there is one.
fn refusal(amount: u64, rows: &[Key], out: &mut [i64], at: usize) -> Option<u8> {
    share(amount, rows, &Plain, out, at)
        .err()
        .map(|fault| fault.number())
}

#[test]
fn three_keys(rt: HostRuntime) {
    let mut out = [9i64; 5];
    assert_eq!(rt;
        refusal(1_000, &[row(5_000), row(2_785), row(2_215)], &mut out, 1),
        None
    );
    assert_eq!(rt; out, [9, 500, 278, 222, 9]);
}

#[test]
fn two_rows(rt: HostRuntime) {
    let mut out = [9i64; 6];
    assert_eq!(rt; refusal(101, &[row(5_000), row(5_000)], &mut out, 0), None);
    assert_eq!(rt; refusal(5, &[row(0), row(0)], &mut out, 2), None);
    assert_eq!(rt; refusal(0, &[row(7), row(0)], &mut out, 4), None);
    assert_eq!(rt; out, [50, 51, 2, 3, 0, 0]);
}

#[test]
fn refusals(rt: HostRuntime) {
    let mut out = [9i64; 2];
    let rows = [row(LARGEST_WEIGHT_SUM), row(1)];
    assert_eq!(rt; refusal(LARGEST_AMOUNT + 1, &rows, &mut out, 1), Some(11));
    assert_eq!(rt;
        refusal(LARGEST_AMOUNT + 1, &rows[..1], &mut out, 0),
        Some(12)
    );
    assert_eq!(rt; refusal(1, &rows, &mut out, 0), Some(12));
    assert_eq!(rt; refusal(1, &[row(1), row(u64::MAX)], &mut out, 0), Some(12));
    assert_eq!(rt; refusal(1, &rows[..0], &mut out, 3), Some(11));
    assert_eq!(rt;
        refusal(LARGEST_AMOUNT + 1, &rows[..0], &mut out, 2),
        Some(12)
    );
    assert_eq!(rt; refusal(LARGEST_AMOUNT, &rows[..0], &mut out, 2), None);
    assert_eq!(rt; out, [9, 9]);
}

// A published hour of a region with eight lines: of the first five only the last and the sum were published.
#[test]
fn region_hour(rt: HostRuntime) {
    let mut out = [0i64; 8];
    let rows = [
        row(152_444),
        row(2_306_802),
        row(3_446),
        row(5_007),
        row(161_853),
        row(51_218),
        row(0),
        row(162_627),
    ];
    assert_eq!(rt; refusal(2_719_042, &rows, &mut out, 0), None);
    let mut first_five = 0i64;
    for share in out.iter().take(5) {
        first_five = first_five.saturating_add(*share);
    }
    assert_eq!(rt; first_five, 2_514_549);
    assert_eq!(rt;
        [out[4], out[5], out[6], out[7]],
        [154_774, 48_978, 0, 155_515]
    );
}
