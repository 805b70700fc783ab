use crate::cases::{NONE, SPAN, refused, table};
use edges::{Cause, Run, lay};
use grids::{ChunkGrid, chunk_origin, grid_shape};
use table_grids::{Dimension, Rectangular, Rectilinear};

#[test]
fn eight_axes_fixed_and_varying(rt: HostRuntime) {
    let table = table();
    let four = Dimension::Fixed(4);
    let axes = [four, SPAN, four, SPAN, four, SPAN, four, SPAN];
    let (grid, made) = Rectangular::new(&[11; 8], &axes, &table);
    assert_eq!(rt; made, Ok(()));
    let mut place = [99; 8];
    assert_eq!(rt; grid_shape(&grid, &mut place), Ok(Some(())));
    assert_eq!(rt; place, [3; 8]);
    assert_eq!(rt; chunk_origin(&grid, &[2; 8], &mut place), Ok(Some(())));
    assert_eq!(rt; place, [8, 6, 8, 6, 8, 6, 8, 6]);
    assert!(rt; grid.fits(6561, 160000));
    assert!(rt; !grid.fits(6560, 160000));
    assert!(rt; !grid.fits(6561, 159999));
}

#[test]
fn spans_may_share_entries(rt: HostRuntime) {
    let table = table();
    let two = Dimension::Varying {
        first: 0,
        number: 2,
    };
    let (grid, made) = Rectangular::new(&[11, 6, 11], &[SPAN, two, SPAN], &table);
    assert_eq!(rt; made, Ok(()));
    assert_eq!(rt; grid.chunks(1), Some(2));
    assert_eq!(rt; grid.chunk_at(1, 6), None);
    assert_eq!(rt; grid.chunk_at(2, 6), Some(2));
}

#[test]
fn a_table_of_65536_entries_and_one_more(rt: HostRuntime) {
    let mut table = [NONE; 65537];
    assert_eq!(rt; lay(&[Run::Repeated(1, 65536)], &mut table), Ok(65536));
    let span = Dimension::Varying {
        first: 0,
        number: 65536,
    };
    let (grid, made) = Rectilinear::new(&[65536], &[span], &table[0..65536]);
    assert_eq!(rt; made, Ok(()));
    assert_eq!(rt; grid.chunk_at(0, 65535), Some(65535));
    assert_eq!(rt; grid.chunk_at(0, 65536), None);
    let (_, made) = Rectilinear::new(&[65536], &[span], &table);
    assert_eq!(rt; made, refused(Cause::Short, 255));
}
