// Kinds of element, and the interfaces of stores, which hold the values of chunks.
#![tactic(auto)]

pub mod element;
mod range;
mod store;

pub use element::{Element, Flaw, Thickness};
pub use range::{in_range, in_store};
pub use store::{ReadStore, WriteStore};
