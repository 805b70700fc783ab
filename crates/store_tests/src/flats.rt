use crate::common::{
    FILL, OLD, RANGE, get_refused, gets, has_numbers, keeps_flaws, keeps_values, put_refused, puts,
    refuses, thick,
};
use memory_stores::Flat;
use std::test::Fail;
use stores::Flaw;

#[test]
fn old_values_are_not_read(rt: HostRuntime) {
    let mut values = [OLD; 12];
    let mut marks = [true; 4];
    let mut store = Flat::new(&mut values, &mut marks, 3);
    has_numbers(&rt, &store, 4, 3, 4, 4);
    keeps_values(&rt, &mut store);
    refuses(&rt, &mut store);
}

#[test]
fn memory_comes_back(rt: HostRuntime) {
    let mut values = [OLD; 7];
    let mut marks = [true; 4];
    let mut store = Flat::new(&mut values, &mut marks, 3);
    has_numbers(&rt, &store, 2, 3, 2, 2);
    puts(&rt, &mut store, 1, 2, thick(6));
    assert_eq!(rt; values[0], OLD);
    assert_eq!(rt; values[3], FILL);
    assert_eq!(rt; values[5], thick(6));
    assert_eq!(rt; values[6], OLD);
    assert!(rt; !marks[0]);
    assert!(rt; marks[1]);
    assert!(rt; marks[2]);
    assert!(rt; marks[3]);
}

#[test]
fn one_value_short_of_a_width(rt: HostRuntime) {
    let mut values = [OLD; 11];
    let mut marks = [false; 4];
    let mut store = Flat::new(&mut values, &mut marks, 3);
    has_numbers(&rt, &store, 3, 3, 3, 3);
    put_refused(&rt, &mut store, 3, 0, RANGE);
    puts(&rt, &mut store, 2, 2, thick(1));
    has_numbers(&rt, &store, 3, 3, 3, 2);
}

#[test]
fn fewer_marks_than_widths(rt: HostRuntime) {
    let mut values = [OLD; 12];
    let mut marks = [false; 2];
    let mut store = Flat::new(&mut values, &mut marks, 3);
    has_numbers(&rt, &store, 2, 3, 2, 2);
    put_refused(&rt, &mut store, 2, 0, RANGE);
    keeps_values(&rt, &mut store);
}

#[test]
fn no_values_and_no_marks(rt: HostRuntime) {
    let mut values = [OLD; 0];
    let mut marks = [true; 3];
    let mut store = Flat::new(&mut values, &mut marks, 3);
    has_numbers(&rt, &store, 0, 3, 0, 0);
    refuses(&rt, &mut store);
    let mut values = [OLD; 3];
    let mut marks = [true; 0];
    let mut store = Flat::new(&mut values, &mut marks, 3);
    has_numbers(&rt, &store, 0, 3, 0, 0);
    refuses(&rt, &mut store);
}

#[test]
fn width_of_zero_and_of_one(rt: HostRuntime) {
    let mut values = [OLD; 5];
    let mut marks = [true; 3];
    let mut store = Flat::new(&mut values, &mut marks, 0);
    has_numbers(&rt, &store, 0, 0, 0, 0);
    refuses(&rt, &mut store);
    let mut store = Flat::new(&mut values, &mut marks, 1);
    has_numbers(&rt, &store, 3, 1, 3, 3);
    refuses(&rt, &mut store);
    puts(&rt, &mut store, 2, 0, thick(4));
    gets(&rt, &store, 2, 0, thick(4));
    gets(&rt, &store, 1, 0, FILL);
}

#[test]
fn the_widest_width(rt: HostRuntime) -> Result<(), Fail> {
    let mut values = vec![in rt.alloc(); OLD; 131073]?;
    let mut marks = [false; 4];
    let mut store = Flat::new(&mut values, &mut marks, 65536);
    has_numbers(&rt, &store, 2, 65536, 2, 2);
    puts(&rt, &mut store, 1, 65535, thick(4));
    gets(&rt, &store, 1, 65535, thick(4));
    gets(&rt, &store, 1, 65534, FILL);
    let mut store = Flat::new(&mut values, &mut marks, 65537);
    has_numbers(&rt, &store, 2, 65536, 2, 2);
    get_refused(&rt, &store, 1, 65536);
    refuses(&rt, &mut store);
    Ok(())
}

#[test]
fn more_chunks_than_the_limit(rt: HostRuntime) -> Result<(), Fail> {
    let mut values = vec![in rt.alloc(); OLD; 65540]?;
    let mut marks = vec![in rt.alloc(); true; 65538]?;
    let mut store = Flat::new(&mut values, &mut marks, 1);
    has_numbers(&rt, &store, 65536, 1, 65536, 65536);
    puts(&rt, &mut store, 65535, 0, thick(4));
    put_refused(&rt, &mut store, 65536, 0, RANGE);
    has_numbers(&rt, &store, 65536, 1, 65536, 65535);
    Ok(())
}

#[test]
fn flaws(rt: HostRuntime) {
    let old = Flaw {
        sort: 9,
        severity: 9,
    };
    let mut values = [old; 6];
    let mut marks = [true; 2];
    keeps_flaws(&rt, &mut Flat::new(&mut values, &mut marks, 3));
}
