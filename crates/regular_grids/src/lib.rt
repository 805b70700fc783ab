// Grids whose chunks have one edge on each axis: regular, and bounded by the array.
#![tactic(auto)]

mod edge_rule;
mod length_grid;
mod lengths;
mod making;
mod reading;
mod regular;
mod regular_bounded;

pub use regular::Regular;
pub use regular_bounded::RegularBounded;
