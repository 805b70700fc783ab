use crate::answers::{OLD, absent, done};
use grids::{
    ChunkGrid, array_indices_inbounds, chunk_element_indices, chunk_indices, chunk_origin,
    chunk_shape, grid_shape, subset,
};
use regular_grids::{Regular, RegularBounded};

#[test]
fn a_size_of_zero(rt: HostRuntime) {
    let mut place = [OLD];
    let (regular, _) = Regular::new(&[0], &[4]);
    assert_eq!(rt; grid_shape(&regular, &mut place), done());
    assert_eq!(rt; place[0], 0);
    assert!(rt; array_indices_inbounds(&regular, &[7]));
    let (bounded, _) = RegularBounded::new(&[0], &[4]);
    assert!(rt; !array_indices_inbounds(&bounded, &[7]));
    place[0] = OLD;
    assert_eq!(rt; chunk_indices(&bounded, &[7], &mut place), absent());
    assert_eq!(rt; place[0], OLD);
}

#[test]
fn the_last_bounded_chunk_is_cut(rt: HostRuntime) {
    let (grid, _) = RegularBounded::new(&[10], &[4]);
    let mut place = [OLD];
    let mut ends = [OLD];
    assert_eq!(rt; chunk_shape(&grid, &[2], &mut place), done());
    assert_eq!(rt; place[0], 2);
    assert_eq!(rt; subset(&grid, &[2], &mut place, &mut ends), done());
    assert_eq!(rt; place[0], 8);
    assert_eq!(rt; ends[0], 10);
    assert_eq!(rt; chunk_origin(&grid, &[3], &mut place), absent());
    assert_eq!(rt; place[0], 8);
    assert_eq!(rt; chunk_indices(&grid, &[10], &mut place), absent());
    assert_eq!(rt; place[0], 8);
}

#[test]
fn regular_chunks_run_past_the_size(rt: HostRuntime) {
    let (grid, _) = Regular::new(&[10], &[4]);
    let mut place = [OLD];
    let mut ends = [OLD];
    assert_eq!(rt; subset(&grid, &[2], &mut place, &mut ends), done());
    assert_eq!(rt; place[0], 8);
    assert_eq!(rt; ends[0], 12);
    assert_eq!(rt; chunk_origin(&grid, &[3], &mut place), done());
    assert_eq!(rt; place[0], 12);
    assert_eq!(rt; chunk_indices(&grid, &[4], &mut place), done());
    assert_eq!(rt; place[0], 1);
    assert_eq!(rt; chunk_element_indices(&grid, &[11], &mut place), done());
    assert_eq!(rt; place[0], 3);
    assert!(rt; !array_indices_inbounds(&grid, &[10]));
}

#[test]
fn grids_fit(rt: HostRuntime) {
    let (regular, _) = Regular::new(&[10, 3], &[4, 4]);
    assert!(rt; regular.fits(3, 16));
    assert!(rt; !regular.fits(2, 16));
    assert!(rt; !regular.fits(3, 15));
    let (bounded, _) = RegularBounded::new(&[10, 3], &[4, 4]);
    assert!(rt; bounded.fits(3, 12));
    assert!(rt; !bounded.fits(3, 11));
    let (huge, _) = Regular::new(&[u64::MAX, u64::MAX, 0], &[1, 1, 1]);
    assert!(rt; huge.fits(0, 0));
}
