//! Why a sharing is refused.
ghost use Rattle.std.specs.Prelude.{◌≡◌};
ghost use Rattle.sharing.specs.Faults.{number_of};

#[derive(Clone, Copy, Debug, PartialEq, Eq, Hash)]
pub enum SharingFault {
    // the memory has too few places for the rows
    Room,
    // the amount or the counted weights pass their limit
    Limit,
}

impl SharingFault {
    // The number that the office knows the refusal by.
    pub fn number(&self) -> u8
        ensures { result ≡ number_of self.now }
    {
        match self {
            SharingFault::Room => 11,
            SharingFault::Limit => 12,
        }
    }
}
