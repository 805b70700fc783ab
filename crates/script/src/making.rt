ghost use Rattle.std.specs.Prelude.{◌≡◌, [], Ok};
ghost use Rattle.std.specs.Option.{option_map};
ghost use Rattle.notation.specs.Lists.{list_in};
ghost use Rattle.notation.specs.Texts.{number_in, texts};
ghost use Rattle.script.specs.Stops.{MakesOrStops};
ghost use Rattle.script.specs.Tables.{axes_in};
ghost use Rattle.script.specs.Lines.{axes_making, current_axes, current_making, kind_making, lengths_making, making_in, outcome, tables_making};

use crate::arguments::Arguments;
use crate::current::{Current, LengthKind, TableKind};
use crate::laying::axes;
use crate::stop::Stop;
use crate::tables::Tables;
use edges::Fault;
use notation::{field, list};
use regular_grids::{Regular, RegularBounded};
use std::alloc::Global;
use table_grids::{Rectangular, Rectilinear};

impl Current {
    // A grid of no axes.
    pub fn none(heap: Global) -> Current
        ensures { current_axes result ≡ [] }
    {
        Current::Lengths(LengthKind::Regular, Vec::new(heap), Vec::new(heap))
    }

    // What the making of this grid answers. Each kind of grid is a type, so each has an arm.
    fn made(&self) -> Result<(), Fault>
        ensures { result ≡ (outcome (current_making self.now)).0 }
    {
        match self {
            Current::Lengths(LengthKind::Regular, sizes, edges) => {
                let (_, answer) = Regular::new(sizes.as_slice(), edges.as_slice());
                answer
            }
            Current::Lengths(LengthKind::Bounded, sizes, edges) => {
                let (_, answer) = RegularBounded::new(sizes.as_slice(), edges.as_slice());
                answer
            }
            Current::Tables(TableKind::Rectangular, sizes, axes, table) => {
                let (_, answer) = Rectangular::new(
                    sizes.as_slice(),
                    axes.as_slice(),
                    table.as_slice(),
                );
                answer
            }
            Current::Tables(TableKind::Rectilinear, sizes, axes, table) => {
                let (_, answer) = Rectilinear::new(
                    sizes.as_slice(),
                    axes.as_slice(),
                    table.as_slice(),
                );
                answer
            }
            Current::Refused(fault) => Err(*fault),
        }
    }
}

// A grid with one edge for each axis, as its sizes and a text describe it.
fn lengths_of(heap: Global, kind: LengthKind, sizes: Vec<u64>, spec: &str) -> Result<Current, Stop>
    ensures { MakesOrStops current_making result (option_map (lengths_making kind sizes.items) (list_in number_in spec.now)) }
{
    let edges = list(heap, spec)?;
    Ok(Current::Lengths(kind, sizes, edges))
}

// A grid over a table, as its sizes and a text describe it.
fn tables_of(heap: Global, kind: TableKind, sizes: Vec<u64>, spec: &str) -> Result<Current, Stop>
    ensures { MakesOrStops current_making result (option_map (axes_making (tables_making kind sizes.items)) (axes_in spec.now)) }
{
    let Tables { dimensions, table } = axes(heap, spec)?;
    Ok(Current::Tables(kind, sizes, dimensions, table))
}

// A grid, as the name of its kind, its sizes and a text describe it. The name is read from a line, so it is matched, here
// alone; a struct of the sizes and the text would be made to be taken apart at once.
fn grid_of(heap: Global, kind: &str, sizes: Vec<u64>, spec: &str) -> Result<Current, Stop>
    ensures { MakesOrStops current_making result (kind_making kind.now sizes.items spec.now) }
{
    match kind {
        "regular" => lengths_of(heap, LengthKind::Regular, sizes, spec),
        "bounded" => lengths_of(heap, LengthKind::Bounded, sizes, spec),
        "rectangular" => tables_of(heap, TableKind::Rectangular, sizes, spec),
        "rectilinear" => tables_of(heap, TableKind::Rectilinear, sizes, spec),
        _ => Err(Stop::NotUnderstood),
    }
}

// `grid KIND sizes=LIST spec=TEXT`: the grid that it makes.
pub(crate) fn make(arguments: Arguments) -> Result<Current, Stop>
    ensures { MakesOrStops (λ grid. Ok (current_axes grid)) result (making_in (texts arguments.entry.words.now)) }
{
    let [kind, sizes, spec] = arguments.words else {
        return Err(Stop::NotUnderstood);
    };
    let sizes = arguments.numbers_field("sizes", sizes)?;
    let spec = field("spec", spec).ok_or(Stop::NotUnderstood)?;
    let grid = grid_of(arguments.heap, kind, sizes, spec)?;
    grid.made()?;
    Ok(grid)
}
