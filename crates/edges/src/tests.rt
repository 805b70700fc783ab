use crate::compressing::compress;
use crate::fault::{Cause, Fault, Layer};
use crate::laying::lay;
use crate::length::Edge;
use crate::table::{OffsetSize, Run};
use std::test::Fail;

const OLD: OffsetSize = OffsetSize { offset: 9, size: 9 };

#[test]
fn runs_are_laid(rt: HostRuntime) {
    let mut table = [OLD; 4];
    assert_eq!(rt;
        lay(&[Run::Repeated(3, 2), Run::Single(5)], &mut table),
        Ok(3)
    );
    assert_eq!(rt; table[0], OffsetSize { offset: 0, size: 3 });
    assert_eq!(rt; table[1], OffsetSize { offset: 3, size: 3 });
    assert_eq!(rt; table[2], OffsetSize { offset: 6, size: 5 });
    assert_eq!(rt; table[3], OLD);
}

#[test]
fn long_runs_are_refused_at_once(rt: HostRuntime) {
    let mut table = [OLD; 2];
    assert_eq!(rt;
        lay(&[Run::Single(7), Run::Repeated(1, 1 << 60)], &mut table),
        Err(Fault::new(Cause::Short, Layer::Edges))
    );
    assert_eq!(rt; table[0], OLD);
}

#[test]
fn zeros_come_before_sums(rt: HostRuntime) {
    let mut table = [OLD; 2];
    let most = u64::MAX;
    assert_eq!(rt; lay(&[Run::Single(most)], &mut table), Ok(1));
    assert_eq!(rt;
        lay(&[Run::Single(most), Run::Single(1)], &mut table),
        Err(Fault::new(Cause::Overflow, Layer::Edges))
    );
    assert_eq!(rt;
        lay(
            &[Run::Repeated(most, most), Run::Repeated(5, 0)],
            &mut table,
        ),
        Err(Fault::new(Cause::Zero, Layer::Edges))
    );
}

#[test]
fn edges_are_compressed(rt: HostRuntime) {
    let mut place = [Run::Single(0); 4];
    assert_eq!(rt; compress(&[3, 5, 3], &mut place), Ok(3));
    assert_eq!(rt; place[1], Run::Single(5));
    assert_eq!(rt; compress(&[3, 3, 5], &mut place), Ok(2));
    assert_eq!(rt; place[0], Run::Repeated(3, 2));
    assert_eq!(rt; place[2], Run::Single(3));
    assert_eq!(rt;
        compress(&[1, 2, 3, 4, 5], &mut place),
        Err(Fault::new(Cause::Short, Layer::Edges))
    );
    assert_eq!(rt;
        compress(&[1, 0], &mut place),
        Err(Fault::new(Cause::Zero, Layer::Edges))
    );
    assert_eq!(rt; compress(&[], &mut place), Ok(0));
}

#[test]
fn refusals_are_shown(rt: HostRuntime) -> Result<(), Fail> {
    let fault = Fault {
        cause: Cause::Overflow,
        layer: Layer::Grid,
        axis: 1,
    };
    assert_eq!(rt;
        fault.to_string(rt.alloc())?.as_str(),
        "refused 5 layer 2 axis 1"
    );
    assert!(rt; Edge::new(0).is_err());
    assert_eq!(rt;
        Fault::new(Cause::Short, Layer::Edges)
            .to_string(rt.alloc())?
            .as_str(),
        "refused 6 layer 1"
    );
    Ok(())
}
