//! The net position of a zone.
use crate::within::Within;

// Tenths of a MW, export positive, at most 1,000,000 either way.
pub(crate) type NetPosition = Within<1_000_000>;
