//! The price of a zone.
use crate::within::Within;

// Cents per MWh, at most 500,000 either way.
pub(crate) type Price = Within<500_000>;
