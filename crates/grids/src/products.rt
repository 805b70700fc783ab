ghost use Rattle.std.specs.Prelude.{◌≤◌, List, Decides};
ghost use Rattle.axes.specs.Axes.{Axis};
ghost use Rattle.axes.specs.Fitting.{product, Fits, Longest};

use crate::regions::has_zero;

// Whether the numbers multiply to at most the limit.
fn product_within(numbers: &[u64], limit: u64) -> bool
    ensures { Decides result (product numbers.now ≤ limit) }
{
    if has_zero(numbers) {
        return true;
    }
    if limit == 0 {
        return false;
    }
    let mut so_far: u64 = 1;
    for n in numbers {
        match so_far.checked_mul(*n) {
            Some(product) if product <= limit => so_far = product,
            _ => return false,
        }
    }
    true
}

// Whether a grid with these counts and longest edges has at most `limit` chunks, each of at most `width` cells.
pub fn fits_by(counts: &[u64], longest: &[u64], limit: u64, width: u64) -> bool
    ensures { (xs : List Axis) → Longest xs counts.now longest.now → Decides result (Fits xs limit width) }
{
    has_zero(counts) || product_within(counts, limit) && product_within(longest, width)
}
