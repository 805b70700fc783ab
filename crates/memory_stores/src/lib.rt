// Stores over memory that the caller supplies: flat, pool and archive.
#![tactic(auto)]

mod archive;
mod directory;
mod extent;
mod flat;
mod pool;
mod row;

pub use archive::Archive;
pub use flat::Flat;
pub use pool::Pool;
