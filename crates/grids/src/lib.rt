// Chunk grids: what each of them answers, and the questions over index lists that any of them serves.
#![tactic(auto)]

mod axis;
mod checking;
mod gather;
mod grid;
mod products;
mod questions;
mod regions;
mod theorems;

pub use checking::check_axes;
pub use grid::ChunkGrid;
pub use products::fits_by;
pub use questions::{
    array_indices_inbounds, array_shape, chunk_element_indices, chunk_indices, chunk_origin,
    chunk_shape, chunks_in_array_subset, grid_shape, subset,
};
pub use theorems::answers_go_axis_by_axis;
