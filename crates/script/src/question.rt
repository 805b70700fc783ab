ghost use Rattle.std.specs.Prelude.{◌≡◌, length};
ghost use Rattle.notation.specs.Texts.{texts};
ghost use Rattle.script.specs.Arguments.{with_read};
ghost use Rattle.script.specs.Questions.{answered_reply, Asks, AsksAbout, dimensionality_reply, shape_reply, numbers_reply, subset_reply, inbounds_reply, chunks_in_reply, fits_reply, question_reply};
ghost use Rattle.script.specs.Replies.{meant, number, decided};
ghost use Rattle.script.specs.Stops.{Replies};

use crate::answer::Answer;
use crate::arguments::{Arguments, number_field};
use crate::name::Question;
use crate::stop::Stop;
use edges::Fault;
use grids::{
    ChunkGrid, array_indices_inbounds, array_shape, chunk_element_indices, chunk_indices,
    chunk_origin, chunk_shape, chunks_in_array_subset, grid_shape, subset,
};

// What was found, where the grid answered.
fn answered(answer: Result<Option<()>, Fault>, found: Answer) -> Result<Answer, Stop>
    ensures { Replies result (answered_reply answer (meant found)) }
{
    match answer? {
        Some(()) => Ok(found),
        None => Ok(Answer::Absent),
    }
}

// Each question takes the grid and the arguments: a struct of the two would be generic over the grid, as each function is.

// `dimensionality`
fn dimensionality<G: ChunkGrid>(grid: &G, words: &[&str]) -> Option<u64>
    ensures { with_read result number ≡ dimensionality_reply (G.axes grid.now) (texts words.now) }
{
    let [] = words else {
        return None;
    };
    Some(grid.dimensionality() as u64)
}

// `array_shape` and its like: a question without numbers
fn answer_shape<G: ChunkGrid, F: FnOnce(&mut [u64]) -> Result<Option<()>, Fault>>(
    grid: &G,
    arguments: Arguments,
    question: F,
) -> Result<Answer, Stop>
    requires { F.IsAlwaysCallable question }
    ensures { (answer : _) → Asks (F.post question) answer → Replies result (shape_reply answer (G.axes grid.now) (texts arguments.entry.words.now)) }
{
    let [] = arguments.words else {
        return Err(Stop::NotUnderstood);
    };
    let mut place = vec![in arguments.heap; 0; grid.dimensionality()]?;
    let answer = question(&mut place);
    answered(answer, Answer::Found(place))
}

// `chunk_shape CHUNK` and its like: a question about a list of numbers
fn answer_numbers<G: ChunkGrid, F: FnOnce(&[u64], &mut [u64]) -> Result<Option<()>, Fault>>(
    grid: &G,
    arguments: Arguments,
    question: F,
) -> Result<Answer, Stop>
    requires { F.IsAlwaysCallable question }
    ensures { (answer : _) → AsksAbout (F.post question) answer → Replies result (numbers_reply answer (G.axes grid.now) (texts arguments.entry.words.now)) }
{
    let numbers = arguments.numbers()?;
    let mut place = vec![in arguments.heap; 0; grid.dimensionality()]?;
    let answer = question(numbers.as_slice(), &mut place);
    answered(answer, Answer::Found(place))
}

// `fits limit=N width=N`
fn fits<G: ChunkGrid>(grid: &G, words: &[&str]) -> Option<bool>
    ensures { with_read result decided ≡ fits_reply (G.axes grid.now) (texts words.now) }
{
    let [limit, width] = words else {
        return None;
    };
    let limit = number_field("limit", limit)?;
    let width = number_field("width", width)?;
    Some(grid.fits(limit, width))
}

// `inbounds INDICES`
fn answer_inbounds<G: ChunkGrid>(grid: &G, arguments: Arguments) -> Result<Answer, Stop>
    ensures { Replies result (inbounds_reply (G.axes grid.now) (texts arguments.entry.words.now)) }
{
    let indices = arguments.numbers()?;
    Ok(Answer::Decided(array_indices_inbounds(grid, indices.as_slice())))
}

// `subset CHUNK`
fn answer_subset<G: ChunkGrid>(grid: &G, arguments: Arguments) -> Result<Answer, Stop>
    ensures { Replies result (subset_reply (G.axes grid.now) (texts arguments.entry.words.now)) }
{
    let chunk = arguments.numbers()?;
    let mut origins = vec![in arguments.heap; 0; grid.dimensionality()]?;
    let mut ends = vec![in arguments.heap; 0; grid.dimensionality()]?;
    let answer = subset(grid, chunk.as_slice(), &mut origins, &mut ends);
    answered(answer, Answer::Bounds(origins, ends))
}

// `chunks_in start=LIST shape=LIST`: from the places on as `subset`, where one text for both would take the call and the
// variant of the answer as closures.
fn answer_chunks_in<G: ChunkGrid>(grid: &G, arguments: Arguments) -> Result<Answer, Stop>
    ensures { Replies result (chunks_in_reply (G.axes grid.now) (texts arguments.entry.words.now)) }
{
    let [start, shape] = arguments.words else {
        return Err(Stop::NotUnderstood);
    };
    let start = arguments.numbers_field("start", start)?;
    let shape = arguments.numbers_field("shape", shape)?;
    let mut firsts = vec![in arguments.heap; 0; grid.dimensionality()]?;
    let mut counts = vec![in arguments.heap; 0; grid.dimensionality()]?;
    let answer = chunks_in_array_subset(
        grid,
        start.as_slice(),
        shape.as_slice(),
        &mut firsts,
        &mut counts,
    );
    answered(answer, Answer::Chunks(firsts, counts))
}

// The answer of a grid to a question. The question is read from a line, so it is matched, here alone.
pub(crate) fn answer_question<G: ChunkGrid>(
    grid: &G,
    question: Question,
    arguments: Arguments,
) -> Result<Answer, Stop>
    ensures { Replies result (question_reply (G.axes grid.now) question (texts arguments.entry.words.now)) }
{
    match question {
        Question::Dimensionality => {
            let number = dimensionality(grid, arguments.words).ok_or(Stop::NotUnderstood)?;
            Ok(Answer::Number(number))
        }
        Question::ArrayShape => answer_shape(grid, arguments, |place| array_shape(grid, place)),
        Question::GridShape => answer_shape(grid, arguments, |place| grid_shape(grid, place)),
        Question::ChunkShape => answer_numbers(grid, arguments, |chunk, place| {
            chunk_shape(grid, chunk, place)
        }),
        Question::ChunkOrigin => answer_numbers(grid, arguments, |chunk, place| {
            chunk_origin(grid, chunk, place)
        }),
        Question::ChunkIndices => answer_numbers(grid, arguments, |indices, place| {
            chunk_indices(grid, indices, place)
        }),
        Question::ChunkElementIndices => answer_numbers(grid, arguments, |indices, place| {
            chunk_element_indices(grid, indices, place)
        }),
        Question::Subset => answer_subset(grid, arguments),
        Question::Inbounds => answer_inbounds(grid, arguments),
        Question::ChunksIn => answer_chunks_in(grid, arguments),
        Question::Fits => {
            let fits = fits(grid, arguments.words).ok_or(Stop::NotUnderstood)?;
            Ok(Answer::Decided(fits))
        }
    }
}
