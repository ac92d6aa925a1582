//! The income book, at rest and with an hour open. The entries lie in memory that each call is handed.
ghost use Rattle.std.specs.Prelude.{◌≤◌};

use crate::book::fault::BookFault;
use crate::book::settled::SettledRegions;

mod entries;
pub(crate) mod fault;
pub(crate) mod open;
pub(crate) mod post;
pub(crate) mod settle;
mod settled;
mod sink;
mod standing;
pub(crate) mod state;
mod statement;
mod text;

// All used entries count. The number stands apart from the entries: their memory is lent to each call, and the book holds
// none.
#[derive(Drop)]
pub(crate) struct RestingBook {
    used: usize,
    ghost few: { used ≤ 1000000 },
}

// The entries past those of the resting book are pending.
#[derive(Drop)]
pub(crate) struct OpenBook {
    rest: RestingBook,
    used: usize,
    hour: u32,
    settled: SettledRegions,
    ghost grown: { rest.used ≤ used },
    ghost small: { used ≤ 1000000 },
}

// A refusal that hands the book back as it was.
#[derive(Drop)]
pub(crate) struct Refusal<B> {
    pub(crate) book: B,
    pub(crate) fault: BookFault,
}
