ghost use Rattle.std.specs.Prelude.{◌≡◌, ℕ};
ghost use Rattle.axes.specs.Axes.{Axis, chunk_of};
ghost use Rattle.axes.specs.Fitting.{LongestIn};
ghost use Rattle.grids.specs.Answers.{lengths, origin_at};
ghost use Rattle.regular_grids.specs.LengthAxes.{RuleKept, axis_by};

use crate::lengths::AxisLengths;
use edges::{Edge, Fault};

// Which edges the chunks of an axis have, by its size and its edge.
pub trait EdgeRule {
    ghost axis: { ℕ → ℕ → Axis };

    ghost kept: { RuleKept axis };

    fn edge(sides: AxisLengths, chunk: u64) -> Option<Edge>
        ensures { lengths result ≡ (axis_by axis sides).edge chunk };

    fn origin(sides: AxisLengths, axis_number: u8, chunk: u64) -> Result<Option<u64>, Fault>
        ensures { result ≡ origin_at axis_number chunk (axis_by axis sides) };

    fn chunk_at(sides: AxisLengths, index: u64) -> Option<u64>
        ensures { result ≡ chunk_of (axis_by axis sides) index };

    // The longest edge.
    fn longest(sides: AxisLengths) -> u64
        ensures { LongestIn (axis_by axis sides) result };
}
