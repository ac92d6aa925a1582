//! Settling a region: its income, the weights and shares of its lines, and the credits of its owners.
mod amount;
pub(crate) mod deal;
pub(crate) mod fault;
pub(crate) mod income;
pub(crate) mod line_row;
pub(crate) mod settle;
pub(crate) mod weights;
