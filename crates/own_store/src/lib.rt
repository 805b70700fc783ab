// A kind of element and a store outside the library, as a user would write them: one chunk of four
// readings, kept in the store itself.
#![tactic(auto)]

mod moisture;
mod single;

pub use moisture::Moisture;
pub use single::Single;

#[cfg(test)]
mod tests;
