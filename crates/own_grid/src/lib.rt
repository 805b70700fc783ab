// A chunk grid outside the library: one axis whose chunks have the edges 1, 2, 4, 8 and so on.
#![tactic(auto)]

mod doubling;
mod grid;

pub use doubling::Doubling;

#[cfg(test)]
mod tests;
