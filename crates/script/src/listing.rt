ghost use Rattle.std.specs.Prelude.{ℕ, List, Some, Ok};
ghost use Rattle.notation.specs.Texts.{texts};
ghost use Rattle.edges.specs.Answers.{lay_answer, compress_answer};
ghost use Rattle.script.specs.Lines.{laid_reply, compressed_reply, list_reply};
ghost use Rattle.script.specs.Replies.{Reply};
ghost use Rattle.script.specs.Stops.{Replies, MakesOrStops};

use crate::answer::Answer;
use crate::arguments::{Arguments, number_field};
use crate::stop::Stop;
use edges::{OffsetSize, Run, compress, lay};
use notation::{Item, list};
use std::alloc::Global;

// The most entries that a command's room may have.
const MOST_ROOM: u64 = 65536;

// A command over a list of items, with room for its answer. The heap, the items and the room stay three: a struct of them
// would be generic over the item, for three functions that take it apart.
pub(crate) trait ListCommand<T> {
    ghost replies: { List T → ℕ → Reply };

    fn carry_out(heap: Global, items: &[T], room: usize) -> Result<Answer, Stop>
        ensures { Replies result (replies items.now room) };
}

// The table of runs laid into this many entries.
pub(crate) fn laid(heap: Global, runs: &[Run], room: usize) -> Result<Vec<OffsetSize>, Stop>
    ensures { MakesOrStops (λ v. Ok v.items) result (Some (lay_answer runs.now room)) }
{
    let mut table = vec![in heap; OffsetSize { offset: 0, size: 0 }; room]?;
    let number = lay(runs, &mut table)?;
    table.truncate(number);
    Ok(table)
}

// The runs of edges compressed into this many entries. One text for this and `laid` would take the
// call as a closure, whose contract speaks of the place after it: no shorter than these four lines.
fn compressed(heap: Global, edges: &[u64], room: usize) -> Result<Vec<Run>, Stop>
    ensures { MakesOrStops (λ v. Ok v.items) result (Some (compress_answer edges.now room)) }
{
    let mut place = vec![in heap; Run::Single(0); room]?;
    let number = compress(edges, &mut place)?;
    place.truncate(number);
    Ok(place)
}

pub(crate) struct Lay;

pub(crate) struct Compress;

impl ListCommand<Run> for Lay {
    ghost replies = { laid_reply };

    fn carry_out(heap: Global, items: &[Run], room: usize) -> Result<Answer, Stop> {
        Ok(Answer::Entries(laid(heap, items, room)?))
    }
}

impl ListCommand<u64> for Compress {
    ghost replies = { compressed_reply };

    fn carry_out(heap: Global, items: &[u64], room: usize) -> Result<Answer, Stop> {
        Ok(Answer::Runs(compressed(heap, items, room)?))
    }
}

// The answer to a command over a list, by the words after its name.
pub(crate) fn answer_list<T: Item, C: ListCommand<T>>(arguments: Arguments) -> Result<Answer, Stop>
    ensures { Replies result (list_reply T.Item.reads C.ListCommand.replies (texts arguments.entry.words.now)) }
{
    let [items, room] = arguments.words else {
        return Err(Stop::NotUnderstood);
    };
    let items = list::<T>(arguments.heap, items)?;
    let room = number_field("room", room).ok_or(Stop::NotUnderstood)?;
    if room > MOST_ROOM {
        return Err(Stop::RoomTooLarge);
    }
    C::carry_out(arguments.heap, items.as_slice(), room as usize)
}
