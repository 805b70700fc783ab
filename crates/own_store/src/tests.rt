use crate::moisture::Moisture;
use crate::single::Single;
use edges::{Cause, Fault, Layer};
use std::process::Abort;
use stores::{ReadStore, WriteStore};

// What any store of moisture does that has a chunk and no other.
fn keeps<S: WriteStore<Item = Moisture>>(rt: &impl Abort, store: &mut S) {
    let range = Fault::new(Cause::Range, Layer::Store);
    let moist = Moisture { percent: 14 };
    assert_eq!(rt; store.free(), 1);
    assert_eq!(rt; store.get(0, 3), Ok(Moisture { percent: 255 }));
    assert_eq!(rt; store.put(0, 3, moist), Ok(()));
    assert_eq!(rt; store.get(0, 3), Ok(moist));
    assert_eq!(rt; store.get(0, 2), Ok(store.fill()));
    assert_eq!(rt; store.put(1, 0, moist), Err(range));
    assert_eq!(rt; store.free(), 0);
    assert_eq!(rt; store.erase(0), Ok(true));
    assert_eq!(rt; store.get(0, 3), Ok(Moisture { percent: 255 }));
}

#[test]
fn a_store_of_ones_own(rt: HostRuntime) {
    keeps(&rt, &mut Single::new());
}
