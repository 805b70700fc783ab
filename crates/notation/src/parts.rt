ghost use Rattle.std.specs.Prelude.{◌≡◌, ◌<◌, IfOk};
ghost use Rattle.std.specs.Option.{option_map};
ghost use Rattle.notation.specs.Texts.{parts_at, words_of, texts, number_in, field_in};

use std::alloc::{AllocError, Global};

// The parts of a text between its marks.
pub(crate) fn parts<'a>(heap: Global, text: &'a str, mark: char) -> Result<Vec<&'a str>, AllocError>
    requires { mark < 128 }
    ensures { IfOk result (λ v. texts v.items ≡ parts_at mark text.now) }
{
    text.split(mark).collect(heap)
}

// The items of a text, between semicolons.
pub fn items<'a>(heap: Global, text: &'a str) -> Result<Vec<&'a str>, AllocError>
    ensures { IfOk result (λ v. texts v.items ≡ parts_at 59 text.now) }
{
    parts(heap, text, ';')
}

// The words of a line, between spaces.
pub fn words<'a>(heap: Global, line: &'a str) -> Result<Vec<&'a str>, AllocError>
    ensures { IfOk result (λ v. texts v.items ≡ words_of line.now) }
{
    let mut words = parts(heap, line, ' ')?;
    words.retain(|part| !part.is_empty());
    // The words are held while the line is answered, and a line may have many spaces.
    words.shrink_to_fit();
    Ok(words)
}

// The number that a text writes.
pub fn number(text: &str) -> Option<u64>
    ensures { result ≡ number_in text.now }
{
    if text.starts_with('+') {
        return None;
    }
    text.parse().ok()
}

// The value of a word such as `room=4`, if its name is this one.
pub fn field<'a>(name: &str, word: &'a str) -> Option<&'a str>
    ensures { option_map (λ x. x.now) result ≡ field_in name.now word.now }
{
    let (key, value) = word.split_once('=')?;
    (key == name).then_some(value)
}
