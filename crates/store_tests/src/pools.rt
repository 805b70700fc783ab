use crate::common::{
    FILL, FULL, OLD, RANGE, erases, gets, has_numbers, is_absent, keeps_flaws, keeps_values,
    put_refused, puts, refuses, thick,
};
use memory_stores::Pool;
use std::process::Abort;
use std::test::Fail;
use stores::{Flaw, ReadStore, Thickness, WriteStore};

#[test]
fn one_slot(rt: HostRuntime) {
    let mut values = [OLD; 4];
    let mut store = Pool::new(&mut values, 4, 10);
    has_numbers(&rt, &store, 10, 4, 1, 1);
    puts(&rt, &mut store, 0, 0, thick(5));
    put_refused(&rt, &mut store, 1, 2, FULL);
    is_absent(&rt, &store, 1);
    gets(&rt, &store, 0, 0, thick(5));
    puts(&rt, &mut store, 0, 3, thick(7));
    erases(&rt, &mut store, 0, true);
    puts(&rt, &mut store, 1, 2, thick(6));
    gets(&rt, &store, 1, 2, thick(6));
    gets(&rt, &store, 1, 0, FILL);
    gets(&rt, &store, 1, 3, FILL);
    is_absent(&rt, &store, 0);
    gets(&rt, &store, 0, 0, FILL);
}

#[test]
fn old_values_are_not_read(rt: HostRuntime) {
    let mut values = [OLD; 8];
    let mut store = Pool::new(&mut values, 3, 5);
    has_numbers(&rt, &store, 5, 3, 2, 2);
    keeps_values(&rt, &mut store);
    refuses(&rt, &mut store);
}

#[test]
fn range_comes_before_room(rt: HostRuntime) {
    let mut values = [OLD; 3];
    let mut store = Pool::new(&mut values, 3, 5);
    puts(&rt, &mut store, 4, 0, thick(1));
    put_refused(&rt, &mut store, 5, 0, RANGE);
    put_refused(&rt, &mut store, 3, 3, RANGE);
    put_refused(&rt, &mut store, 3, 2, FULL);
    erases(&rt, &mut store, 3, false);
    has_numbers(&rt, &store, 5, 3, 1, 0);
}

// Puts into as many chunks as there are slots, then into one more.
fn fills_up<S: WriteStore<Item = Thickness>>(rt: &impl Abort, store: &mut S) {
    for chunk in 0..store.slots() {
        let value = thick((chunk % 1000) as u16);
        puts(rt, store, chunk, 1, value);
    }
    assert_eq!(rt; store.free(), 0);
    put_refused(rt, store, store.slots(), 1, FULL);
    for chunk in 0..store.slots() {
        let value = thick((chunk % 1000) as u16);
        gets(rt, store, chunk, 1, value);
        gets(rt, store, chunk, 0, FILL);
    }
}

#[test]
fn more_values_than_slots(rt: HostRuntime) {
    let mut values = [OLD; 514];
    let mut store = Pool::new(&mut values, 2, 300);
    has_numbers(&rt, &store, 300, 2, 256, 256);
    fills_up(&rt, &mut store);
    erases(&rt, &mut store, 17, true);
    puts(&rt, &mut store, 299, 0, thick(3));
    gets(&rt, &store, 299, 1, FILL);
    gets(&rt, &store, 17, 1, FILL);
    gets(&rt, &store, 255, 1, thick(255));
}

#[test]
fn width_of_zero_and_of_one(rt: HostRuntime) {
    let mut values = [OLD; 2];
    let mut store = Pool::new(&mut values, 0, 7);
    has_numbers(&rt, &store, 0, 0, 0, 0);
    refuses(&rt, &mut store);
    let mut store = Pool::new(&mut values, 1, 7);
    has_numbers(&rt, &store, 7, 1, 2, 2);
    refuses(&rt, &mut store);
}

#[test]
fn the_widest_width_and_the_highest_limit(rt: HostRuntime) -> Result<(), Fail> {
    let mut values = vec![in rt.alloc(); OLD; 65536]?;
    let mut store = Pool::new(&mut values, 65537, 65537);
    has_numbers(&rt, &store, 65536, 65536, 1, 1);
    puts(&rt, &mut store, 65535, 65535, thick(9));
    gets(&rt, &store, 65535, 65535, thick(9));
    gets(&rt, &store, 65535, 65534, FILL);
    put_refused(&rt, &mut store, 65536, 0, RANGE);
    let mut store = Pool::new(&mut values, 65536, u64::MAX);
    has_numbers(&rt, &store, 65536, 65536, 1, 1);
    Ok(())
}

#[test]
fn no_slots(rt: HostRuntime) {
    let mut values = [OLD; 2];
    let mut store = Pool::new(&mut values, 3, 7);
    has_numbers(&rt, &store, 7, 3, 0, 0);
    put_refused(&rt, &mut store, 0, 0, FULL);
    gets(&rt, &store, 0, 0, FILL);
    assert_eq!(rt; values[0], OLD);
}

#[test]
fn no_chunks(rt: HostRuntime) {
    let mut values = [OLD; 9];
    let mut store = Pool::new(&mut values, 3, 0);
    has_numbers(&rt, &store, 0, 3, 3, 3);
    refuses(&rt, &mut store);
}

#[test]
fn flaws(rt: HostRuntime) {
    let old = Flaw {
        sort: 9,
        severity: 9,
    };
    let mut values = [old; 3];
    keeps_flaws(&rt, &mut Pool::new(&mut values, 3, 4));
}
