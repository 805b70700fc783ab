use crate::answers::{OLD, absent, done, refused};
use edges::Cause;
use grids::{
    array_indices_inbounds, array_shape, chunk_element_indices, chunk_indices, chunk_origin,
    chunk_shape, chunks_in_array_subset, grid_shape, subset,
};
use regular_grids::{Regular, RegularBounded};

#[test]
fn origins_and_ends_past_64_bits(rt: HostRuntime) {
    let half: u64 = 1 << 63;
    let (grid, _) = Regular::new(&[10, 10], &[1, half]);
    let mut place = [OLD, OLD];
    let mut ends = [OLD, OLD];
    assert_eq!(rt; chunk_origin(&grid, &[7, 1], &mut place), done());
    assert_eq!(rt; place[1], half);
    place[0] = OLD;
    assert_eq!(rt;
        subset(&grid, &[7, 1], &mut place, &mut ends),
        refused(Cause::Overflow, 1)
    );
    assert_eq!(rt;
        chunk_origin(&grid, &[7, 2], &mut place),
        refused(Cause::Overflow, 1)
    );
    assert_eq!(rt; place[0], OLD);
    assert_eq!(rt; ends[0], OLD);
}

#[test]
fn the_first_axis_at_fault_is_named(rt: HostRuntime) {
    let half: u64 = 1 << 63;
    let (grid, _) = Regular::new(&[10, 10], &[half, half]);
    let mut place = [OLD, OLD];
    let mut ends = [OLD, OLD];
    assert_eq!(rt;
        subset(&grid, &[1, 2], &mut place, &mut ends),
        refused(Cause::Overflow, 0)
    );
    assert_eq!(rt;
        chunk_origin(&grid, &[1, 2], &mut place),
        refused(Cause::Overflow, 1)
    );
    assert_eq!(rt; place[0], OLD);
}

#[test]
fn the_greatest_sizes_and_edges(rt: HostRuntime) {
    let most = u64::MAX;
    let mut place = [OLD];
    let (regular, _) = Regular::new(&[most], &[most]);
    assert_eq!(rt; grid_shape(&regular, &mut place), done());
    assert_eq!(rt; place[0], 1);
    assert_eq!(rt; chunk_indices(&regular, &[most], &mut place), done());
    assert_eq!(rt; place[0], 1);
    let (bounded, _) = RegularBounded::new(&[most], &[1 << 63]);
    assert_eq!(rt; chunk_shape(&bounded, &[1], &mut place), done());
    assert_eq!(rt; place[0], (1 << 63) - 1);
    assert_eq!(rt; chunk_indices(&bounded, &[most - 1], &mut place), done());
    assert_eq!(rt; place[0], 1);
    assert_eq!(rt; chunk_indices(&bounded, &[most], &mut place), absent());
}

#[test]
fn wrong_lengths(rt: HostRuntime) {
    let (grid, _) = Regular::new(&[10, 10], &[4, 4]);
    let mut short = [OLD];
    let mut place = [OLD, OLD];
    assert_eq!(rt; array_shape(&grid, &mut short), refused(Cause::Length, 255));
    assert_eq!(rt; grid_shape(&grid, &mut short), refused(Cause::Length, 255));
    assert_eq!(rt;
        chunk_shape(&grid, &[1], &mut place),
        refused(Cause::Length, 255)
    );
    assert_eq!(rt;
        chunk_shape(&grid, &[1, 1], &mut short),
        refused(Cause::Length, 255)
    );
    assert_eq!(rt;
        chunk_origin(&grid, &[1, 1, 1], &mut place),
        refused(Cause::Length, 255)
    );
    assert_eq!(rt;
        chunk_indices(&grid, &[1, 1], &mut short),
        refused(Cause::Length, 255)
    );
    assert_eq!(rt;
        chunk_element_indices(&grid, &[], &mut place),
        refused(Cause::Length, 255)
    );
    assert!(rt; !array_indices_inbounds(&grid, &[1]));
    assert_eq!(rt; short[0], OLD);
    assert_eq!(rt; place[0], OLD);
}

#[test]
fn wrong_lengths_of_two_places(rt: HostRuntime) {
    let (grid, _) = Regular::new(&[10, 10], &[4, 4]);
    let mut short = [OLD];
    let mut place = [OLD, OLD];
    assert_eq!(rt;
        subset(&grid, &[1, 1], &mut short, &mut place),
        refused(Cause::Length, 255)
    );
    assert_eq!(rt;
        subset(&grid, &[1, 1], &mut place, &mut short),
        refused(Cause::Length, 255)
    );
    assert_eq!(rt;
        chunks_in_array_subset(&grid, &[1], &[0, 0], &mut place, &mut short),
        refused(Cause::Length, 255)
    );
    assert_eq!(rt; short[0], OLD);
    assert_eq!(rt; place[0], OLD);
}

#[test]
fn wrong_lengths_of_places(rt: HostRuntime) {
    let (grid, _) = RegularBounded::new(&[10, 10], &[4, 4]);
    let mut long = [OLD, OLD, OLD];
    let mut place = [OLD, OLD];
    assert_eq!(rt;
        chunk_origin(&grid, &[1, 1], &mut long),
        refused(Cause::Length, 255)
    );
    assert_eq!(rt;
        chunk_element_indices(&grid, &[1, 1], &mut long),
        refused(Cause::Length, 255)
    );
    assert_eq!(rt;
        chunks_in_array_subset(&grid, &[1, 1], &[1, 1], &mut long, &mut place),
        refused(Cause::Length, 255)
    );
    assert_eq!(rt;
        chunks_in_array_subset(&grid, &[1, 1], &[1, 1], &mut place, &mut long),
        refused(Cause::Length, 255)
    );
    assert_eq!(rt; long[0], OLD);
    assert_eq!(rt; place[0], OLD);
}
