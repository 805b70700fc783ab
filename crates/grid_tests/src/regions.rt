use crate::answers::{OLD, absent, done, refused};
use edges::Cause;
use grids::chunks_in_array_subset;
use regular_grids::{Regular, RegularBounded};

#[test]
fn regions_in_the_array_and_past_it(rt: HostRuntime) {
    let (grid, _) = Regular::new(&[10, 10], &[4, 4]);
    let mut firsts = [OLD, OLD];
    let mut counts = [OLD, OLD];
    assert_eq!(rt;
        chunks_in_array_subset(&grid, &[1, 7], &[3, 2], &mut firsts, &mut counts),
        done()
    );
    assert_eq!(rt; firsts[0], 0);
    assert_eq!(rt; firsts[1], 1);
    assert_eq!(rt; counts[0], 1);
    assert_eq!(rt; counts[1], 2);
    assert_eq!(rt;
        chunks_in_array_subset(&grid, &[9, 9], &[1, 8], &mut firsts, &mut counts),
        done()
    );
    assert_eq!(rt; firsts[1], 2);
    assert_eq!(rt; counts[1], 3);
}

#[test]
fn an_empty_region_has_no_chunks(rt: HostRuntime) {
    let (grid, _) = RegularBounded::new(&[10, 10], &[4, 4]);
    let mut firsts = [OLD, OLD];
    let mut counts = [OLD, OLD];
    assert_eq!(rt;
        chunks_in_array_subset(&grid, &[u64::MAX, 7], &[9, 0], &mut firsts, &mut counts),
        done()
    );
    assert_eq!(rt; firsts[0], 0);
    assert_eq!(rt; counts[1], 0);
}

#[test]
fn a_region_that_leaves_a_bounded_grid_is_absent(rt: HostRuntime) {
    let (grid, _) = RegularBounded::new(&[10, 10], &[4, 4]);
    let mut firsts = [OLD, OLD];
    let mut counts = [OLD, OLD];
    assert_eq!(rt;
        chunks_in_array_subset(&grid, &[0, 9], &[1, 2], &mut firsts, &mut counts),
        absent()
    );
    assert_eq!(rt; firsts[0], OLD);
    assert_eq!(rt; counts[0], OLD);
    assert_eq!(rt;
        chunks_in_array_subset(&grid, &[0, 9], &[1, 1], &mut firsts, &mut counts),
        done()
    );
    assert_eq!(rt; firsts[1], 2);
}

#[test]
fn a_region_ends_at_the_greatest_index(rt: HostRuntime) {
    let most = u64::MAX;
    let (grid, _) = Regular::new(&[10], &[1 << 63]);
    let mut firsts = [OLD];
    let mut counts = [OLD];
    assert_eq!(rt;
        chunks_in_array_subset(&grid, &[most - 1], &[1], &mut firsts, &mut counts),
        done()
    );
    assert_eq!(rt; firsts[0], 1);
    assert_eq!(rt; counts[0], 1);
    assert_eq!(rt;
        chunks_in_array_subset(&grid, &[most - 1], &[2], &mut firsts, &mut counts),
        refused(Cause::Overflow, 0)
    );
    assert_eq!(rt; firsts[0], 1);
}
