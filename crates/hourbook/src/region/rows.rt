//! The parts of a region.
// Prices in cents per MWh, net positions in tenths of a MW.
#[derive(Clone, Copy, Debug, PartialEq, Eq)]
pub(crate) struct Zone {
    pub(crate) price: i32,
    pub(crate) position: i32,
}

// Where a line ends: in a zone, numbered from 1, or in the slack hub, which is not a zone that is missing.
#[derive(Clone, Copy, Debug, PartialEq, Eq)]
pub(crate) enum LineEnd {
    Zone(u8),
    Hub,
}

// A line, the prices at its ends, and the spread by which it earns. The flow is positive where it leaves the near
// zone, in hundred-thousandths of a MW.
#[derive(Clone, Copy, Debug, PartialEq, Eq)]
pub(crate) struct Line {
    pub(crate) near: u8,
    pub(crate) far: LineEnd,
    pub(crate) flow: i64,
    pub(crate) near_price: i32,
    pub(crate) far_price: i32,
    pub(crate) spread: i32,
}
