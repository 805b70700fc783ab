ghost use Rattle.std.specs.Prelude.{◌≡◌, ◌≤◌, length, Some, None, MatchResult};
ghost use Rattle.table_grids.specs.Causes.{sum_cause, entries_cause, axis_cause, unless_cause};
ghost use Rattle.table_grids.specs.Views.{Described};

use crate::dimension::Dimension;
use crate::span::Span;
use crate::sum_rule::SumRule;
use crate::table_axis::TableAxis;
use edges::{Cause, Edge, OffsetSize};

// A span by its number of entries, whether a size is 0, and the sum.
fn check_sum<R: SumRule>(size: u64, number: usize, zero: bool, sum: u128) -> Result<(), Cause>
    ensures { result ≡ unless_cause (sum_cause R.keeps size number zero sum) }
{
    if zero {
        return Err(Cause::Zero);
    }
    if sum > u64::MAX as u128 {
        return Err(Cause::Overflow);
    }
    if number == 0 || !R::keeps_rule(size, sum) {
        return Err(Cause::Sum);
    }
    Ok(())
}

// The span of these entries, at most 65,536, so that the sum has 128 bits. The table is as short in the two functions that
// lead here; a type for it would be made and taken apart within this crate.
fn check_span<'a, R: SumRule>(size: u64, entries: &'a [OffsetSize]) -> Result<Span<'a>, Cause>
    requires { length entries.now ≤ 65536 }
    ensures { MatchResult result
        (λ s. (entries_cause R.keeps size entries.now ≡ None) × (s.size ≡ size) × (s.entries.now ≡ entries.now))
        (λ c. entries_cause R.keeps size entries.now ≡ Some c) }
{
    let mut end: u128 = 0;
    let mut zero = false;
    for row in entries {
        if row.offset as u128 != end {
            return Err(Cause::Short);
        }
        zero |= row.size == 0;
        end += row.size as u128;
    }
    check_sum::<R>(size, entries.len(), zero, end)?;
    Ok(Span { size, entries })
}

// The axis of a size and a dimension.
pub(crate) fn check_axis<'a, R: SumRule>(
    table: &'a [OffsetSize],
    size: u64,
    dimension: Dimension,
) -> Result<TableAxis<'a>, Cause>
    requires { length table.now ≤ 65536 }
    ensures { MatchResult result
        (λ x. (axis_cause R.keeps table.now size dimension ≡ None) × Described x table.now size dimension)
        (λ c. axis_cause R.keeps table.now size dimension ≡ Some c) }
{
    match dimension {
        Dimension::Fixed(edge) => {
            let edge = Edge::new(edge).map_err(|fault| fault.cause)?;
            Ok(TableAxis::Equal { size, edge })
        }
        Dimension::Varying { first, number } => {
            if first > table.len() || number > table.len() - first {
                return Err(Cause::Short);
            }
            let span = check_span::<R>(size, &table[first..first + number])?;
            Ok(TableAxis::Listed(span))
        }
    }
}
