use edges::{Cause, Fault, Layer};
use std::process::Abort;
use stores::{Flaw, ReadStore, Thickness, WriteStore};

pub(crate) const RANGE: Fault = Fault {
    cause: Cause::Range,
    layer: Layer::Store,
    axis: 255,
};

pub(crate) const FULL: Fault = Fault {
    cause: Cause::Full,
    layer: Layer::Store,
    axis: 255,
};

// What memory holds before a store is made over it.
pub(crate) const OLD: Thickness = Thickness { hundredths: 999 };

pub(crate) const FILL: Thickness = Thickness { hundredths: 0 };

pub(crate) fn thick(hundredths: u16) -> Thickness {
    Thickness { hundredths }
}

// The limit, the width, the slots and the free slots of a store.
pub(crate) fn has_numbers<S: ReadStore>(
    rt: &impl Abort,
    store: &S,
    limit: u64,
    width: u64,
    slots: u64,
    free: u64,
) {
    assert_eq!(rt; store.limit(), limit);
    assert_eq!(rt; store.width(), width);
    assert_eq!(rt; store.slots(), slots);
    assert_eq!(rt; store.free(), free);
}

// What a call answers. The calls stand in generic functions, where a store is no more than its
// contract.
pub(crate) fn puts<S: WriteStore>(
    rt: &impl Abort,
    store: &mut S,
    chunk: u64,
    place: u64,
    value: S::Item,
) {
    assert_eq!(rt; store.put(chunk, place, value), Ok(()));
}

pub(crate) fn put_refused<S: WriteStore>(
    rt: &impl Abort,
    store: &mut S,
    chunk: u64,
    place: u64,
    fault: Fault,
) {
    let value = store.fill();
    assert_eq!(rt; store.put(chunk, place, value), Err(fault));
}

pub(crate) fn gets<S: ReadStore<Item = Thickness>>(
    rt: &impl Abort,
    store: &S,
    chunk: u64,
    place: u64,
    value: Thickness,
) {
    assert_eq!(rt; store.get(chunk, place), Ok(value));
}

pub(crate) fn get_refused<S: ReadStore<Item = Thickness>>(
    rt: &impl Abort,
    store: &S,
    chunk: u64,
    place: u64,
) {
    assert_eq!(rt; store.get(chunk, place), Err(RANGE));
}

pub(crate) fn erases<S: WriteStore>(rt: &impl Abort, store: &mut S, chunk: u64, was: bool) {
    assert_eq!(rt; store.erase(chunk), Ok(was));
}

pub(crate) fn is_absent<S: ReadStore>(rt: &impl Abort, store: &S, chunk: u64) {
    assert_eq!(rt; store.present(chunk), Ok(false));
}

// What any writable store of flaws does that has at least two chunks, of width 3, none present.
pub(crate) fn keeps_flaws<S: WriteStore<Item = Flaw>>(rt: &impl Abort, store: &mut S) {
    let knot = Flaw {
        sort: 2,
        severity: 7,
    };
    let none = Flaw {
        sort: 0,
        severity: 0,
    };
    assert_eq!(rt; store.fill(), none);
    assert_eq!(rt; store.put(1, 2, knot), Ok(()));
    assert_eq!(rt; store.get(1, 2), Ok(knot));
    assert_eq!(rt; store.get(1, 1), Ok(none));
    assert_eq!(rt; store.get(0, 2), Ok(none));
}

// What any writable store of thickness does that has at least two chunks, of width 3, none present.
pub(crate) fn keeps_values<S: WriteStore<Item = Thickness>>(rt: &impl Abort, store: &mut S) {
    let free = store.free();
    assert_eq!(rt; store.fill(), FILL);
    assert_eq!(rt; store.present(0), Ok(false));
    assert_eq!(rt; store.get(0, 1), Ok(FILL));
    assert_eq!(rt; store.erase(0), Ok(false));
    assert_eq!(rt; store.put(0, 1, thick(147)), Ok(()));
    assert_eq!(rt; store.present(0), Ok(true));
    assert!(rt; store.free() < free);
    assert_eq!(rt; store.get(0, 0), Ok(FILL));
    assert_eq!(rt; store.get(0, 1), Ok(thick(147)));
    assert_eq!(rt; store.get(0, 2), Ok(FILL));
    assert_eq!(rt; store.present(1), Ok(false));
    assert_eq!(rt; store.put(0, 2, thick(8)), Ok(()));
    assert_eq!(rt; store.get(0, 1), Ok(thick(147)));
    assert_eq!(rt; store.erase(0), Ok(true));
    assert_eq!(rt; store.free(), free);
    assert_eq!(rt; store.get(0, 1), Ok(FILL));
    assert_eq!(rt; store.put(0, 0, thick(5)), Ok(()));
    assert_eq!(rt; store.get(0, 0), Ok(thick(5)));
    assert_eq!(rt; store.get(0, 1), Ok(FILL));
    assert_eq!(rt; store.get(0, 2), Ok(FILL));
}

// The refusals of any writable store, which change nothing.
pub(crate) fn refuses<S: WriteStore<Item = Thickness>>(rt: &impl Abort, store: &mut S) {
    let limit = store.limit();
    let width = store.width();
    let free = store.free();
    assert_eq!(rt; store.present(limit), Err(RANGE));
    assert_eq!(rt; store.get(limit, 0), Err(RANGE));
    assert_eq!(rt; store.get(0, width), Err(RANGE));
    assert_eq!(rt; store.put(limit, 0, thick(1)), Err(RANGE));
    assert_eq!(rt; store.put(0, width, thick(1)), Err(RANGE));
    assert_eq!(rt; store.put(u64::MAX, u64::MAX, thick(1)), Err(RANGE));
    assert_eq!(rt; store.erase(limit), Err(RANGE));
    assert_eq!(rt; store.free(), free);
}
