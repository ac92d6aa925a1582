//! The zones and borders of a region, without their prices.
ghost use Rattle.std.specs.Prelude.{◌≡◌, ◌≤◌, length, vec_len, MatchOption};

use crate::hourfile::border::Border;
use crate::hourfile::method::Method;
use crate::hourfile::position::NetPosition;

const MOST_ZONES: usize = 16;

const MOST_BORDERS: usize = 48;

// 1 to 16 zones by their net positions, and at most 48 borders.
#[derive(Drop)]
pub(crate) struct Network {
    method: Method,
    positions: Vec<NetPosition>,
    borders: Vec<Border>,
    ghost some_zones: { 1 ≤ vec_len positions },
    ghost few_zones: { vec_len positions ≤ 16 },
    ghost few_borders: { vec_len borders ≤ 48 },
}

impl Network {
    pub(crate) fn new(
        method: Method,
        positions: Vec<NetPosition>,
        borders: Vec<Border>,
    ) -> Option<Network>
        ensures { MatchOption result (1 ≤ vec_len positions → vec_len positions ≤ 16 → vec_len borders ≤ 48 → ⊥) (λ n. (n.method ≡ method) × (n.positions.items ≡ positions.items) × (n.borders.items ≡ borders.items)) }
    {
        if positions.is_empty() || positions.len() > MOST_ZONES || borders.len() > MOST_BORDERS {
            return None;
        }
        Some(Network {
            method,
            positions,
            borders,
        })
    }

    pub(crate) fn method(&self) -> Method
        ensures { result ≡ self.now.method }
    {
        self.method
    }

    pub(crate) fn positions(&self) -> &[NetPosition]
        ensures value { result.now ≡ self.now.positions.items }
        ensures some { 1 ≤ length result.now }
        ensures few { length result.now ≤ 16 }
    {
        self.positions.as_slice()
    }

    pub(crate) fn borders(&self) -> &[Border]
        ensures value { result.now ≡ self.now.borders.items }
        ensures few { length result.now ≤ 48 }
    {
        self.borders.as_slice()
    }
}
