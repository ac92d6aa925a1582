//! A number within a limit either way.
ghost use Rattle.std.specs.Prelude.{◌≡◌, ◌≤◌, MatchResult, pos, unsigned_abs};

#[derive(Clone, Copy, Debug, PartialEq, Eq)]
pub(crate) struct Within<const LIMIT: u32> {
    value: i32,
    ghost bounded: { unsigned_abs value ≤ LIMIT },
}

// The number passes the limit.
#[derive(Clone, Copy, Debug, PartialEq, Eq)]
pub(crate) struct OutOfRange;

impl<const LIMIT: u32> TryFrom<i32> for Within<LIMIT> {
    type Error = OutOfRange;

    ghost try_from_gives = { λ number r. MatchResult r (λ w. w.value ≡ number) (λ _. ¬ (unsigned_abs number ≤ LIMIT)) };

    fn try_from(number: i32) -> Result<Within<LIMIT>, OutOfRange> {
        if number.unsigned_abs() > LIMIT {
            return Err(OutOfRange);
        }
        Ok(Within { value: number })
    }
}

impl<const LIMIT: u32> Within<LIMIT> {
    pub(crate) fn get(self) -> i32
        ensures value { result ≡ self.entry.value }
        ensures bound { unsigned_abs result ≤ LIMIT }
    {
        self.value
    }
}

impl<const LIMIT: u32> Default for Within<LIMIT> {
    ghost is_default = { λ w. w.value ≡ pos 0 };

    fn default() -> Within<LIMIT> {
        Within { value: 0 }
    }
}
