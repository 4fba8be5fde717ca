//! Plans of small stores.

use super::*;
use std::test::Fail;

/// Layer 3 is a child of 1.
const FOUR: [LayerRow; 4] = [
    LayerRow {
        number: 1,
        parent: None,
    },
    LayerRow {
        number: 2,
        parent: None,
    },
    LayerRow {
        number: 3,
        parent: Some(1),
    },
    LayerRow {
        number: 4,
        parent: None,
    },
];

fn rollup(number: u32) -> DropRow {
    let kind = DropKind::Rollup;
    DropRow { kind, number }
}

fn layer(number: u32) -> DropRow {
    let kind = DropKind::Layer;
    DropRow { kind, number }
}

/// Layer 1 has a label, 2 a rollup, and 4 is the newest.
#[test]
fn unreached_layers_go_from_the_greatest_down(rt: HostRuntime) -> Result<(), Fail> {
    let rows = plan(rt.alloc(), &FOUR, &[2], &[1])?;
    assert_eq!(rt; rows.as_slice(), [layer(3), rollup(2), layer(2)].as_slice());
    Ok(())
}

/// A label on 3 reaches 1.
#[test]
fn ancestors_stay(rt: HostRuntime) -> Result<(), Fail> {
    let rows = plan(rt.alloc(), &FOUR, &[1], &[3])?;
    assert_eq!(rt; rows.as_slice(), [layer(2)].as_slice());
    Ok(())
}

#[test]
fn an_empty_store_keeps_nothing(rt: HostRuntime) -> Result<(), Fail> {
    let rows = plan(rt.alloc(), &[], &[], &[])?;
    assert!(rt; rows.is_empty());
    Ok(())
}
