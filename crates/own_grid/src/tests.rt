use crate::doubling::Doubling;
use grids::{
    ChunkGrid, array_indices_inbounds, array_shape, chunk_element_indices, chunk_indices,
    chunk_origin, chunk_shape, chunks_in_array_subset, grid_shape, subset,
};

#[test]
fn shapes_and_chunks(rt: HostRuntime) {
    let grid = Doubling::new(4);
    let mut place = [99];
    let mut ends = [99];
    assert_eq!(rt; array_shape(&grid, &mut place), Ok(Some(())));
    assert_eq!(rt; place[0], 15);
    assert_eq!(rt; grid_shape(&grid, &mut place), Ok(Some(())));
    assert_eq!(rt; place[0], 4);
    assert_eq!(rt; chunk_shape(&grid, &[3], &mut place), Ok(Some(())));
    assert_eq!(rt; place[0], 8);
    assert_eq!(rt; subset(&grid, &[3], &mut place, &mut ends), Ok(Some(())));
    assert_eq!(rt; place[0], 7);
    assert_eq!(rt; ends[0], 15);
    assert_eq!(rt; chunk_origin(&grid, &[4], &mut place), Ok(None));
    assert_eq!(rt; place[0], 7);
}

#[test]
fn indices_and_regions(rt: HostRuntime) {
    let grid = Doubling::new(4);
    let mut place = [99];
    let mut counts = [99];
    assert_eq!(rt; chunk_indices(&grid, &[7], &mut place), Ok(Some(())));
    assert_eq!(rt; place[0], 3);
    assert_eq!(rt;
        chunk_element_indices(&grid, &[6], &mut place),
        Ok(Some(()))
    );
    assert_eq!(rt; place[0], 3);
    assert!(rt; array_indices_inbounds(&grid, &[14]));
    assert!(rt; !array_indices_inbounds(&grid, &[15]));
    assert_eq!(rt;
        chunks_in_array_subset(&grid, &[2], &[6], &mut place, &mut counts),
        Ok(Some(()))
    );
    assert_eq!(rt; place[0], 1);
    assert_eq!(rt; counts[0], 3);
    assert!(rt; grid.fits(4, 8));
    assert!(rt; !grid.fits(4, 7));
}
