//! Amounts that can be shared.
ghost use Rattle.std.specs.Prelude.{◌≡◌, ◌<◌, ◌≤◌, MatchResult};
ghost use Rattle.sharing.specs.Shares.{part};
ghost use Rattle.sharing.specs.declared.fault.SharingFault.TheVariants.{Limit};

use crate::fault::SharingFault;

// A larger amount is not shared.
pub const LARGEST_AMOUNT: u64 = 2_000_000_000;

// An amount to share, or a share of one.
#[derive(Clone, Copy, Debug, PartialEq, Eq)]
pub struct Amount {
    cents: u32,
    ghost small: { cents ≤ 2000000000 },
}

impl Amount {
    pub fn cents(self) -> u32
        ensures value { result ≡ self.cents }
        ensures bound { result ≤ 2000000000 }
    {
        self.cents
    }

    // The share of the row that brings the running sum from `before` to `after`, where all rows weigh `whole`.
    pub(crate) fn part(self, before: u64, after: u64, whole: u64) -> Amount
        requires some { 0 < whole }
        requires rises { before ≤ after }
        requires within { after ≤ whole }
        requires light { whole ≤ 4000000000 }
        ensures { result.cents ≡ part self.cents whole before after }
    {
        let amount = u64::from(self.cents);
        let reached = amount * after / whole;
        let given = amount * before / whole;
        Amount {
            cents: u32::try_from(reached - given).unwrap(),
        }
    }
}

impl TryFrom<u64> for Amount {
    type Error = SharingFault;

    ghost try_from_gives = { λ n r. MatchResult r (λ a. a.cents ≡ n) (λ e. (e ≡ Limit) × (2000000000 < n)) };

    fn try_from(cents: u64) -> Result<Amount, SharingFault> {
        if cents > LARGEST_AMOUNT {
            return Err(SharingFault::Limit);
        }
        Ok(Amount {
            cents: u32::try_from(cents).unwrap(),
        })
    }
}
