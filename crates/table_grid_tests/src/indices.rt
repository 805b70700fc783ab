use crate::cases::{NONE, SPAN, table};
use edges::{Run, lay};
use grids::{ChunkGrid, array_indices_inbounds, chunk_element_indices, chunk_origin, subset};
use table_grids::{Dimension, Rectilinear};

// An index, its chunk, its place there, and whether it is in bounds at size 10.
#[derive(Clone, Copy)]
struct IndexCase {
    index: u64,
    chunk: u64,
    element: u64,
    inbounds: bool,
}

fn index(index: u64, chunk: u64, element: u64, inbounds: bool) -> IndexCase {
    IndexCase {
        index,
        chunk,
        element,
        inbounds,
    }
}

// The place of an index in its chunk, where it has one.
fn element<'a>(grid: &Rectilinear<'a>, index: u64) -> Option<u64> {
    let mut place = [99];
    chunk_element_indices(grid, &[index], &mut place).ok()??;
    Some(place[0])
}

#[test]
fn runs_are_laid_and_accepted(rt: HostRuntime) {
    let mut laid = [NONE; 3];
    let runs = [Run::Repeated(3, 2), Run::Single(5)];
    assert_eq!(rt; lay(&runs, &mut laid), Ok(3));
    assert_eq!(rt; laid, table());
    let (_, made) = Rectilinear::new(&[10], &[SPAN], &laid);
    assert_eq!(rt; made, Ok(()));
}

#[test]
fn indices_around_offsets(rt: HostRuntime) {
    let table = table();
    let (grid, _) = Rectilinear::new(&[10], &[SPAN], &table);
    let cases = [
        index(0, 0, 0, true),
        index(2, 0, 2, true),
        index(3, 1, 0, true),
        index(9, 2, 3, true),
        index(10, 2, 4, false),
    ];
    for case in &cases {
        assert_eq!(rt; grid.chunk_at(0, case.index), Some(case.chunk));
        assert_eq!(rt; element(&grid, case.index), Some(case.element));
        assert_eq!(rt; array_indices_inbounds(&grid, &[case.index]), case.inbounds);
    }
    assert_eq!(rt; grid.chunk_at(0, 11), None);
    assert_eq!(rt; grid.chunk_at(1, 0), None);
}

#[test]
fn spare_chunks_past_the_size(rt: HostRuntime) {
    let table = table();
    let (grid, _) = Rectilinear::new(&[0], &[SPAN], &table);
    assert_eq!(rt; grid.chunks(0), Some(3));
    assert!(rt; array_indices_inbounds(&grid, &[10]));
    assert!(rt; !array_indices_inbounds(&grid, &[11]));
    let (grid, _) = Rectilinear::new(&[4], &[SPAN], &table);
    assert!(rt; !array_indices_inbounds(&grid, &[4]));
    let mut origins = [99];
    let mut ends = [99];
    assert_eq!(rt; subset(&grid, &[2], &mut origins, &mut ends), Ok(Some(())));
    assert_eq!(rt; origins[0], 6);
    assert_eq!(rt; ends[0], 11);
    assert_eq!(rt; chunk_origin(&grid, &[3], &mut origins), Ok(None));
    assert_eq!(rt; origins[0], 6);
}

#[test]
fn around_each_offset_of_a_long_table(rt: HostRuntime) {
    let mut table = [NONE; 1000];
    let runs = [Run::Repeated(3, 400), Run::Single(7), Run::Repeated(2, 599)];
    assert_eq!(rt; lay(&runs, &mut table), Ok(1000));
    let span = Dimension::Varying {
        first: 0,
        number: 1000,
    };
    let rows = table;
    let (grid, _) = Rectilinear::new(&[2405], &[span], &table);
    for (place, row) in rows.iter().enumerate() {
        let chunk = place as u64;
        assert_eq!(rt; grid.chunk_at(0, row.offset), Some(chunk));
        assert_eq!(rt; grid.chunk_at(0, row.offset.saturating_add(1)), Some(chunk));
        let last = row.offset.saturating_add(row.size.saturating_sub(1));
        assert_eq!(rt; grid.chunk_at(0, last), Some(chunk));
        if chunk > 0 {
            assert_eq!(rt;
                grid.chunk_at(0, row.offset.saturating_sub(1)),
                Some(chunk - 1)
            );
        }
    }
    assert_eq!(rt; grid.chunk_at(0, 2404), Some(999));
    assert_eq!(rt; grid.chunk_at(0, 2405), None);
}
