ghost use Rattle.std.specs.Prelude.{◌≡◌, Some};
ghost use Rattle.script.specs.Replies.{meant, reply_text};

use edges::{Fault, OffsetSize, Run};
use notation::Listed;
use std::fmt;

// What a line is answered.
#[derive(Drop)]
pub enum Answer {
    Entries(Vec<OffsetSize>),
    Runs(Vec<Run>),
    Made,
    Number(u64),
    Found(Vec<u64>),
    Absent,
    Bounds(Vec<u64>, Vec<u64>),
    Chunks(Vec<u64>, Vec<u64>),
    Decided(bool),
    Refused(Fault),
    RoomTooLarge,
    NotUnderstood,
}

// Items with commas between them.
fn commas<T>(items: &[T]) -> Listed<'_, T>
    ensures items { result.items.now ≡ items.now }
    ensures mark { result.mark ≡ 44 }
{
    Listed { items, mark: ',' }
}

impl fmt::Display for Answer {
    ghost output = { λ a. Some (reply_text (meant a)) };

    fn fmt<W: fmt::Write>(&self, f: &mut fmt::Formatter<W>) -> fmt::Result {
        match self {
            Answer::Entries(entries) => {
                let number = entries.len();
                let items = entries.as_slice();
                let list = Listed { items, mark: ' ' };
                write!(f, "{number} entries {list}")
            }
            Answer::Runs(runs) => {
                let number = runs.len();
                let list = commas(runs.as_slice());
                write!(f, "{number} runs {list}")
            }
            Answer::Made => write!(f, "ok"),
            Answer::Number(number) => write!(f, "{number}"),
            Answer::Found(values) => write!(f, "some {}", commas(values.as_slice())),
            Answer::Absent => write!(f, "none"),
            Answer::Bounds(origins, ends) => {
                let first = commas(origins.as_slice());
                let second = commas(ends.as_slice());
                write!(f, "some {first} to {second}")
            }
            Answer::Chunks(firsts, counts) => {
                let first = commas(firsts.as_slice());
                let second = commas(counts.as_slice());
                write!(f, "some {first} shape {second}")
            }
            Answer::Decided(true) => write!(f, "yes"),
            Answer::Decided(false) => write!(f, "no"),
            Answer::Refused(fault) => write!(f, "{fault}"),
            Answer::RoomTooLarge => write!(f, "room is at most 65536"),
            Answer::NotUnderstood => write!(f, "not understood"),
        }
    }
}
