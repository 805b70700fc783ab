ghost use Rattle.std.specs.Prelude.{◌≡◌, ◌≤◌, length, Ok};
ghost use Rattle.grids.specs.Making.{first_fault, unless};
ghost use Rattle.grids.specs.Answers.{has_zero, beyond};

use edges::{Cause, Fault, Layer};

// Whether a shape has a 0.
pub(crate) fn has_zero(shape: &[u64]) -> bool
    ensures { result ≡ has_zero shape.now }
{
    shape.contains(&0)
}

// Refused at the first axis where start + shape exceeds 64 bits.
pub(crate) fn ends_fit(start: &[u64], shape: &[u64]) -> Result<(), Fault>
    requires { (length start.now ≡ length shape.now) × (length shape.now ≤ 8) }
    ensures { result ≡ unless (first_fault (beyond start.now shape.now) (length shape.now)) (Ok tt) }
{
    for (axis, length) in shape.iter().enumerate() {
        let end = start[axis].checked_add(*length);
        end.ok_or(Fault::on_axis(Cause::Overflow, Layer::Grid, axis as u8))?;
    }
    Ok(())
}
