use crate::common::{FILL, RANGE, has_numbers, thick};
use memory_stores::Archive;
use std::test::Fail;
use stores::{Element, Flaw, ReadStore};

#[test]
fn every_chunk_is_present(rt: HostRuntime) {
    let values = [
        thick(1),
        thick(2),
        thick(3),
        thick(4),
        thick(5),
        thick(6),
        thick(7),
    ];
    let store = Archive::new(&values, 3);
    has_numbers(&rt, &store, 2, 3, 2, 0);
    assert_eq!(rt; store.fill(), FILL);
    assert_eq!(rt; store.present(0), Ok(true));
    assert_eq!(rt; store.present(1), Ok(true));
    assert_eq!(rt; store.present(2), Err(RANGE));
    assert_eq!(rt; store.get(0, 0), Ok(thick(1)));
    assert_eq!(rt; store.get(0, 2), Ok(thick(3)));
    assert_eq!(rt; store.get(1, 0), Ok(thick(4)));
    assert_eq!(rt; store.get(1, 2), Ok(thick(6)));
    assert_eq!(rt; store.get(1, 3), Err(RANGE));
    assert_eq!(rt; store.get(2, 0), Err(RANGE));
    assert_eq!(rt; values[6], thick(7));
}

#[test]
fn widths(rt: HostRuntime) {
    let values = [thick(1), thick(2)];
    has_numbers(&rt, &Archive::new(&values, 0), 0, 0, 0, 0);
    has_numbers(&rt, &Archive::new(&values, 1), 2, 1, 2, 0);
    has_numbers(&rt, &Archive::new(&values, 2), 1, 2, 1, 0);
    has_numbers(&rt, &Archive::new(&values, 3), 0, 3, 0, 0);
    has_numbers(&rt, &Archive::new(&values, 65537), 0, 65536, 0, 0);
    assert_eq!(rt; Archive::new(&values, 0).get(0, 0), Err(RANGE));
    assert_eq!(rt; Archive::new(&values, 3).get(0, 0), Err(RANGE));
}

#[test]
fn more_chunks_than_the_limit(rt: HostRuntime) -> Result<(), Fail> {
    let values = vec![in rt.alloc(); thick(3); 65537]?;
    let store = Archive::new(values.as_slice(), 1);
    has_numbers(&rt, &store, 65536, 1, 65536, 0);
    assert_eq!(rt; store.get(65535, 0), Ok(thick(3)));
    assert_eq!(rt; store.get(65536, 0), Err(RANGE));
    Ok(())
}

#[test]
fn flaws(rt: HostRuntime) {
    let knot = Flaw {
        sort: 2,
        severity: 7,
    };
    let values = [knot];
    let store = Archive::new(&values, 1);
    assert_eq!(rt; store.get(0, 0), Ok(knot));
}
