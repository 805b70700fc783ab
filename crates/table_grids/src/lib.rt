// Grids that read their edges from a table in the caller's memory: rectangular and rectilinear.
#![tactic(auto)]

mod answering;
mod checking;
mod dimension;
mod making;
mod reading;
mod rectangular;
mod rectilinear;
mod span;
mod sum_rule;
mod table_axis;
mod table_grid;

pub use dimension::Dimension;
pub use rectangular::Rectangular;
pub use rectilinear::Rectilinear;
