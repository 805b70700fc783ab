ghost use Rattle.std.specs.Prelude.{◌≡◌, ℕ, List, vec_items, Option};
ghost use Rattle.notation.specs.Texts.{number_in, texts};
ghost use Rattle.notation.specs.Laws.{WrittenIsRead};
ghost use Rattle.notation.specs.Lists.{each_in, list_in, run_in, Reads};

use crate::error::ListError;
use crate::parts::{number, parts};
use edges::Run;
use std::alloc::Global;

// What can stand in a list of the script. It is no `FromStr`, since that of `u64` reads a sign.
pub trait Item: Copy {
    ghost reads: { List ℕ → Option Self };

    // The item that a text writes.
    fn read(text: &str) -> Option<Self>
        ensures { result ≡ reads text.now };
}

impl Item for u64 {
    ghost reads = { number_in };

    fn read(text: &str) -> Option<u64> {
        number(text)
    }
}

impl Item for Run {
    ghost reads = { run_in };

    fn read(text: &str) -> Option<Run> {
        match text.split_once('x') {
            None => Some(Run::Single(number(text)?)),
            Some((edge, count)) => Some(Run::Repeated(number(edge)?, number(count)?)),
        }
    }
}

// What each text stands for, if each stands for something.
fn each<T: Item>(heap: Global, words: &[&str]) -> Result<Vec<T>, ListError>
    ensures { Reads vec_items result (each_in T.Item.reads (texts words.now)) }
{
    let mut items = Vec::new(heap);
    for word in words {
        items.push(T::read(word).ok_or(ListError::NotAList)?)?;
    }
    Ok(items)
}

// The list that a text writes.
pub fn list<T: Item>(heap: Global, text: &str) -> Result<Vec<T>, ListError>
    ensures list { Reads vec_items result (list_in T.Item.reads text.now) }
    ensures back { WrittenIsRead }
{
    if text == "-" {
        return Ok(Vec::new(heap));
    }
    let words = parts(heap, text, ',')?;
    each(heap, words.as_slice())
}
