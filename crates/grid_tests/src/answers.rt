use edges::{Cause, Fault, Layer};

// What a place holds before a call.
pub(crate) const OLD: u64 = 99;

pub(crate) fn done() -> Result<Option<()>, Fault> {
    Ok(Some(()))
}

pub(crate) fn absent() -> Result<Option<()>, Fault> {
    Ok(None)
}

// A refusal of the grid's layer; axis 255 names none.
pub(crate) fn refused(cause: Cause, axis: u8) -> Result<Option<()>, Fault> {
    Err(Fault::on_axis(cause, Layer::Grid, axis))
}
