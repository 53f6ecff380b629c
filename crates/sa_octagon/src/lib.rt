//! Packs of cells over octagon matrices: what is known of sums and differences of up to eight cells.
//!
//! It stands on the matrices of `sa_dbm` and the intervals of `sa_interval`. The layer above uses that each call gives the
//! table that `specs/Packs.antt` names, and that what it gives holds of every point of which the rule's premise holds.
//! A change must keep that variable k of the matrix is the pack's cell number k, and that there is a span for each cell.
#![tactic(auto)]

mod fill;
mod pack;
mod reads;

pub use pack::Pack;
pub use sa_dbm::{Closing, OutOfMemory};
