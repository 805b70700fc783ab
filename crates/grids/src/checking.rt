ghost use Rattle.std.specs.Prelude.{◌≡◌, ◌≤◌, Ok};
ghost use Rattle.grids.specs.Making.{axes_answer};

use edges::{Cause, Fault, Layer};

// What every making refuses first: 1 where it is given lists of two lengths, 2 above 8 axes.
pub fn check_axes(sizes: usize, others: usize) -> Result<(), Fault>
    ensures answer { result ≡ axes_answer sizes others }
    ensures few { result ≡ Ok tt → (sizes ≡ others) × (sizes ≤ 8) }
{
    if sizes != others {
        return Err(Fault::new(Cause::Length, Layer::Grid));
    }
    if sizes > 8 {
        return Err(Fault::new(Cause::Axes, Layer::Grid));
    }
    Ok(())
}
