// The commands of the program: a line of text in, its answer out.
#![tactic(auto)]

mod answer;
mod arguments;
mod current;
mod laying;
mod line;
mod listing;
mod making;
mod name;
mod program;
mod question;
mod stop;
mod tables;

pub use answer::Answer;
pub use current::{Current, LengthKind, TableKind};
pub use line::answer_line;
pub use program::run_script;
