ghost use Rattle.std.specs.Prelude.{◌≡◌, vec_items};
ghost use Rattle.notation.specs.Texts.{texts};
ghost use Rattle.notation.specs.Lists.{Reads};
ghost use Rattle.script.specs.Arguments.{number_field, numbers_field, only_numbers};

use notation::{ListError, field, list, number};
use std::alloc::Global;

// The words after a command's name, and the heap for what is read of them.
#[derive(Clone, Copy)]
pub(crate) struct Arguments<'a> {
    pub(crate) heap: Global,
    pub(crate) words: &'a [&'a str],
}

impl<'a> Arguments<'a> {
    // The list of numbers that is the only argument.
    pub(crate) fn numbers(self) -> Result<Vec<u64>, ListError>
        ensures { Reads vec_items result (only_numbers (texts self.entry.words.now)) }
    {
        let [text] = self.words else {
            return Err(ListError::NotAList);
        };
        list(self.heap, text)
    }

    // The list of numbers in a field such as `start=1,1`.
    pub(crate) fn numbers_field(self, name: &str, word: &str) -> Result<Vec<u64>, ListError>
        ensures { Reads vec_items result (numbers_field name.now word.now) }
    {
        let text = field(name, word).ok_or(ListError::NotAList)?;
        list(self.heap, text)
    }
}

// The number in a field such as `limit=9`.
pub(crate) fn number_field(name: &str, word: &str) -> Option<u64>
    ensures { result ≡ number_field name.now word.now }
{
    number(field(name, word)?)
}
