//! What a region means, the coordinated method, and losses as a layer over any region.
pub(crate) mod balance;
pub(crate) mod coordinated;
pub(crate) mod fault;
pub(crate) mod losses;
pub(crate) mod meaning;
pub(crate) mod parts;
pub(crate) mod rows;
