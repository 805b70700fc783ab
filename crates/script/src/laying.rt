ghost use Rattle.std.specs.Prelude.{◌≡◌, Some, Ok};
ghost use Rattle.std.specs.Option.{option_map};
ghost use Rattle.notation.specs.Texts.{texts};
ghost use Rattle.notation.specs.Lists.{Reads};
ghost use Rattle.script.specs.Stops.{MakesOrStops};
ghost use Rattle.script.specs.Tables.{bracketed as bracketed_in, laying, nothing_laid, fixed_more, runs_more, next_axis, axes_laid, axes_in, added, whole};

use crate::listing::laid;
use crate::stop::Stop;
use crate::tables::{AxisText, Tables};
use edges::Run;
use notation::{ListError, items, list, number};
use std::alloc::Global;
use table_grids::Dimension;

// The most entries of a table.
const MOST_ENTRIES: usize = 65536;

// The text between a `[` and a `]`.
fn bracketed(text: &str) -> Option<&str>
    ensures { option_map (λ x. x.now) result ≡ bracketed_in text.now }
{
    text.strip_prefix('[')?.strip_suffix(']')
}

// The axis that a text writes.
fn axis(heap: Global, text: &str) -> Result<AxisText, ListError>
    ensures { (l : _) → Reads (added l) result (next_axis l text.now) }
{
    match bracketed(text) {
        None => Ok(AxisText::Fixed(number(text).ok_or(ListError::NotAList)?)),
        Some(runs) => Ok(AxisText::Runs(list(heap, runs)?)),
    }
}

impl Tables {
    // No axes.
    fn none(heap: Global) -> Tables
        ensures { laying result ≡ nothing_laid }
    {
        Tables {
            dimensions: Vec::new(heap),
            table: Vec::new(heap),
        }
    }

    // One more axis, with one edge for every chunk.
    fn add_fixed(&mut self, edge: u64) -> Result<(), Stop>
        ensures { MakesOrStops (λ _. Ok (laying self.new)) result (Some (whole (fixed_more (laying self.old) edge))) }
    {
        self.dimensions.push(Dimension::Fixed(edge))?;
        Ok(())
    }

    // One more axis, with the edges to which these runs expand.
    fn add_runs(&mut self, heap: Global, runs: &[Run]) -> Result<(), Stop>
        ensures { MakesOrStops (λ _. Ok (laying self.new)) result (Some (whole (runs_more (laying self.old) (laying self.old).fault runs.now))) }
    {
        let first = self.table.len();
        let entries = laid(heap, runs, MOST_ENTRIES.saturating_sub(first))?;
        let number = entries.len();
        self.table.extend_from_slice(entries.as_slice())?;
        self.dimensions.push(Dimension::Varying { first, number })?;
        Ok(())
    }

    // One more axis.
    fn add(&mut self, heap: Global, axis: &AxisText) -> Result<(), Stop>
        ensures { MakesOrStops (λ _. Ok (laying self.new)) result (Some (whole (added (laying self.old) axis.now))) }
    {
        match axis {
            AxisText::Fixed(edge) => self.add_fixed(*edge),
            AxisText::Runs(runs) => self.add_runs(heap, runs.as_slice()),
        }
    }
}

// The axes that the texts write, laid one after another into one table. Each is laid as soon as it is read, so that the runs
// of one axis are held at a time. A text that writes no axis comes before a refusal, so the first one is kept meanwhile.
fn each_axis(heap: Global, words: &[&str]) -> Result<Tables, Stop>
    ensures { MakesOrStops (λ t. Ok (laying t)) result (option_map whole (axes_laid (texts words.now) nothing_laid)) }
{
    let mut tables = Tables::none(heap);
    let mut refused = Ok(());
    for word in words {
        let axis = axis(heap, word)?;
        if refused.is_ok() {
            match tables.add(heap, &axis) {
                Ok(()) => {}
                Err(Stop::Refused(fault)) => refused = Err(fault),
                Err(stop) => return Err(stop),
            }
        }
    }
    refused?;
    Ok(tables)
}

// The axes that a text writes, laid one after another into one table.
pub(crate) fn axes(heap: Global, text: &str) -> Result<Tables, Stop>
    ensures { MakesOrStops (λ t. Ok (laying t)) result (option_map whole (axes_in text.now)) }
{
    if text == "-" {
        return Ok(Tables::none(heap));
    }
    let words = items(heap, text)?;
    each_axis(heap, words.as_slice())
}
