use crate::answers::done;
use edges::{Cause, Fault, Layer};
use grids::{ChunkGrid, array_indices_inbounds, array_shape, chunk_indices};
use regular_grids::{Regular, RegularBounded};

#[test]
fn no_axes(rt: HostRuntime) {
    let (grid, made) = Regular::new(&[], &[]);
    assert_eq!(rt; made, Ok(()));
    assert_eq!(rt; grid.dimensionality(), 0);
    assert_eq!(rt; array_shape(&grid, &mut []), done());
    assert_eq!(rt; chunk_indices(&grid, &[], &mut []), done());
    assert!(rt; array_indices_inbounds(&grid, &[]));
    assert!(rt; !array_indices_inbounds(&grid, &[0]));
    assert!(rt; grid.fits(1, 1));
    assert!(rt; !grid.fits(0, 1));
}

#[test]
fn eight_axes_and_nine(rt: HostRuntime) {
    let (grid, made) = Regular::new(&[3; 8], &[2; 8]);
    assert_eq!(rt; made, Ok(()));
    assert_eq!(rt; grid.dimensionality(), 8);
    assert_eq!(rt; grid.chunks(7), Some(2));
    assert_eq!(rt; grid.chunks(8), None);
    let (grid, made) = Regular::new(&[3; 9], &[0; 9]);
    assert_eq!(rt; made, Err(Fault::new(Cause::Axes, Layer::Grid)));
    assert_eq!(rt; grid.dimensionality(), 0);
}

#[test]
fn lengths_differ_or_an_edge_is_zero(rt: HostRuntime) {
    let (grid, made) = RegularBounded::new(&[3; 9], &[0; 8]);
    assert_eq!(rt; made, Err(Fault::new(Cause::Length, Layer::Grid)));
    assert_eq!(rt; grid.dimensionality(), 0);
    let (grid, made) = RegularBounded::new(&[5, 5, 5], &[1, 0, 0]);
    assert_eq!(rt; made, Err(Fault::on_axis(Cause::Zero, Layer::Grid, 1)));
    assert_eq!(rt; grid.dimensionality(), 0);
    assert_eq!(rt; grid.size(0), None);
}
