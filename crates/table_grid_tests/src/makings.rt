use crate::cases::{SPAN, refused, row, table};
use edges::{Cause, Fault};
use grids::ChunkGrid;
use table_grids::{Dimension, Rectangular, Rectilinear};

// A size, and whether a list that sums to 11 is accepted as rectangular and as rectilinear.
#[derive(Clone, Copy)]
struct SizeCase {
    size: u64,
    rectangular: bool,
    rectilinear: bool,
}

fn size(size: u64, rectangular: bool, rectilinear: bool) -> SizeCase {
    SizeCase {
        size,
        rectangular,
        rectilinear,
    }
}

fn unless_sum(accepted: bool) -> Result<(), Fault> {
    if accepted {
        Ok(())
    } else {
        refused(Cause::Sum, 0)
    }
}

#[test]
fn sums_and_sizes(rt: HostRuntime) {
    let table = table();
    let sizes = [
        size(0, false, true),
        size(4, false, true),
        size(10, false, true),
        size(11, true, true),
        size(12, false, false),
    ];
    for case in &sizes {
        let (_, made) = Rectangular::new(&[case.size], &[SPAN], &table);
        assert_eq!(rt; made, unless_sum(case.rectangular));
        let (_, made) = Rectilinear::new(&[case.size], &[SPAN], &table);
        assert_eq!(rt; made, unless_sum(case.rectilinear));
    }
}

// A span, and what comes of it.
#[derive(Clone, Copy)]
struct SpanCase {
    axis: Dimension,
    made: Result<(), Fault>,
}

fn span(first: usize, number: usize, made: Result<(), Fault>) -> SpanCase {
    SpanCase {
        axis: Dimension::Varying { first, number },
        made,
    }
}

#[test]
fn spans_that_break_a_rule(rt: HostRuntime) {
    let most = u64::MAX;
    let table = [
        row(0, 3),
        row(3, 3),
        row(7, 5),
        row(0, 2),
        row(2, 0),
        row(2, 1),
        row(0, most),
        row(most, 1),
    ];
    let short = refused(Cause::Short, 0);
    let spans = [
        span(0, 1, Ok(())),
        span(0, 2, Ok(())),
        span(0, 3, short),
        span(1, 1, short),
        span(3, 3, refused(Cause::Zero, 0)),
        span(3, 4, short),
        span(6, 1, Ok(())),
        span(6, 2, refused(Cause::Overflow, 0)),
        span(6, 3, short),
        span(8, 0, refused(Cause::Sum, 0)),
        span(9, 0, short),
        span(usize::MAX, 2, short),
    ];
    for case in &spans {
        let (_, made) = Rectilinear::new(&[1], &[case.axis], &table);
        assert_eq!(rt; made, case.made);
    }
}

#[test]
fn an_empty_span_is_refused_at_any_size(rt: HostRuntime) {
    let empty = Dimension::Varying {
        first: 0,
        number: 0,
    };
    for size in 0..3 {
        let (grid, made) = Rectangular::new(&[size], &[empty], &[]);
        assert_eq!(rt; made, refused(Cause::Sum, 0));
        assert_eq!(rt; grid.dimensionality(), 0);
        let (_, made) = Rectilinear::new(&[size], &[empty], &[]);
        assert_eq!(rt; made, refused(Cause::Sum, 0));
    }
}

#[test]
fn the_first_axis_at_fault_is_named(rt: HostRuntime) {
    let table = table();
    let zero = Dimension::Fixed(0);
    let (grid, made) = Rectangular::new(&[11, 11, 10], &[SPAN, zero, SPAN], &table);
    assert_eq!(rt; made, refused(Cause::Zero, 1));
    assert_eq!(rt; grid.dimensionality(), 0);
    let (_, made) = Rectangular::new(&[11, 11, 10], &[SPAN, SPAN, SPAN], &table);
    assert_eq!(rt; made, refused(Cause::Sum, 2));
    let (_, made) = Rectangular::new(&[11, 11], &[SPAN, zero, SPAN], &table);
    assert_eq!(rt; made, refused(Cause::Length, 255));
    let (_, made) = Rectangular::new(&[11; 9], &[zero; 9], &table);
    assert_eq!(rt; made, refused(Cause::Axes, 255));
}
