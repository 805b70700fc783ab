// How scripts write words, numbers, fields and lists, and how lists are written back.
#![tactic(auto)]

mod error;
mod item;
mod listed;
mod parts;

pub use error::ListError;
pub use item::{Item, list};
pub use listed::Listed;
pub use parts::{field, items, number, words};
