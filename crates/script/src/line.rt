ghost use Rattle.std.specs.Prelude.{◌≡◌, IfOk};
ghost use Rattle.std.specs.Option.{option_map};
ghost use Rattle.notation.specs.Texts.{texts};
ghost use Rattle.script.specs.Lines.{current_axes, made_reply, made_axes, outcome_in, named_reply, named_axes, words_reply, words_axes, reply, line_axes, Becomes};
ghost use Rattle.script.specs.Names.{command_named};
ghost use Rattle.script.specs.Questions.{question_reply};
ghost use Rattle.script.specs.Replies.{meant};
ghost use Rattle.script.specs.Stops.{Replies, settled as settled_answer};

use crate::answer::Answer;
use crate::arguments::Arguments;
use crate::current::{Current, LengthKind, TableKind};
use crate::listing::{Compress, Lay, answer_list};
use crate::making::make;
use crate::name::{Command, Question};
use crate::question::answer_question;
use crate::stop::{Stop, settled};
use edges::Run;
use notation::words;
use regular_grids::{Regular, RegularBounded};
use std::alloc::{AllocError, Global};
use table_grids::{Rectangular, Rectilinear};

// The answer of the current grid to a question. Each kind of grid is a type, so each has an arm.
fn ask(current: &Current, question: Question, arguments: Arguments) -> Result<Answer, Stop>
    ensures { Replies result (question_reply (current_axes current.now) question (texts arguments.entry.words.now)) }
{
    match current {
        Current::Lengths(LengthKind::Regular, sizes, edges) => {
            let (grid, _) = Regular::new(sizes.as_slice(), edges.as_slice());
            answer_question(&grid, question, arguments)
        }
        Current::Lengths(LengthKind::Bounded, sizes, edges) => {
            let (grid, _) = RegularBounded::new(sizes.as_slice(), edges.as_slice());
            answer_question(&grid, question, arguments)
        }
        Current::Tables(TableKind::Rectangular, sizes, axes, table) => {
            let (grid, _) = Rectangular::new(sizes.as_slice(), axes.as_slice(), table.as_slice());
            answer_question(&grid, question, arguments)
        }
        Current::Tables(TableKind::Rectilinear, sizes, axes, table) => {
            let (grid, _) = Rectilinear::new(sizes.as_slice(), axes.as_slice(), table.as_slice());
            answer_question(&grid, question, arguments)
        }
        Current::Refused(_) => {
            let (grid, _) = Regular::new(&[], &[]);
            answer_question(&grid, question, arguments)
        }
    }
}

// `grid KIND sizes=LIST spec=TEXT`: makes the current grid; one that is refused has no axes.
fn set_grid(current: &mut Current, arguments: Arguments) -> Result<Answer, Stop>
    ensures answer { Replies result (made_reply (outcome_in (texts arguments.entry.words.now))) }
    ensures after { Becomes (settled_answer result) (current_axes current.old) (current_axes current.new) (made_axes (current_axes current.old) (outcome_in (texts arguments.entry.words.now))) }
{
    match make(arguments) {
        Ok(grid) => {
            *current = grid;
            Ok(Answer::Made)
        }
        Err(Stop::Refused(fault)) => {
            *current = Current::Refused(fault);
            Err(Stop::Refused(fault))
        }
        Err(stop) => Err(stop),
    }
}

// The answer to a command, by its name and the words after it. The command is read from a line, so it is matched.
fn answer_command(current: &mut Current, name: &str, arguments: Arguments) -> Result<Answer, Stop>
    ensures answer { Replies result (named_reply (current_axes current.old) (command_named name.now) (texts arguments.entry.words.now)) }
    ensures after { Becomes (settled_answer result) (current_axes current.old) (current_axes current.new) (named_axes (current_axes current.old) (command_named name.now) (texts arguments.entry.words.now)) }
{
    match name.parse::<Command>()? {
        Command::Lay => answer_list::<Run, Lay>(arguments),
        Command::Compress => answer_list::<u64, Compress>(arguments),
        Command::Grid => set_grid(current, arguments),
        Command::Ask(question) => ask(current, question, arguments),
    }
}

// The answer to the words of a line; none where there is no word, which is no error.
fn answer_words(
    heap: Global,
    current: &mut Current,
    words: &[&str],
) -> Result<Option<Answer>, AllocError>
    ensures answer { IfOk result (λ o. option_map meant o ≡ words_reply (current_axes current.old) (texts words.now)) }
    ensures after { Becomes result (current_axes current.old) (current_axes current.new) (words_axes (current_axes current.old) (texts words.now)) }
{
    let [name, words @ ..] = words else {
        return Ok(None);
    };
    let answer = answer_command(current, name, Arguments { heap, words });
    Ok(Some(settled(answer)?))
}

// The answer to a line, and the current grid after it; a line that begins with `#`, or has no word, has none, which is no error.
pub fn answer_line(
    heap: Global,
    current: &mut Current,
    line: &str,
) -> Result<Option<Answer>, AllocError>
    ensures answer { IfOk result (λ o. option_map meant o ≡ reply (current_axes current.old) line.now) }
    ensures after { Becomes result (current_axes current.old) (current_axes current.new) (line_axes (current_axes current.old) line.now) }
{
    if line.starts_with('#') {
        return Ok(None);
    }
    let words = words(heap, line)?;
    answer_words(heap, current, words.as_slice())
}
