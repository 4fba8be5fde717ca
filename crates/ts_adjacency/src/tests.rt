//! Two rows of three places, and bits that end no row.

use crate::{AdjacencyView, RowsView};
use std::test::Fail;
use ts_bits::BitView;
use ts_log::LogView;

/// The ranked bit array of 0, 1, 1: a row of two places, and a row of one.
const TWO_ROWS: [u8; 32] = [
    0, 0, 0, 0, 0, 0, 0, 3, 0x60, 0, 0, 0, 0, 0, 0, 0, 0, 0, 0, 0, 0, 0, 0, 0, 0, 0, 0, 0, 0, 0, 0,
    0,
];

/// The ranked bit array of 0, 1, 0: the last place is in no row.
const OPEN_ROW: [u8; 32] = [
    0, 0, 0, 0, 0, 0, 0, 3, 0x40, 0, 0, 0, 0, 0, 0, 0, 0, 0, 0, 0, 0, 0, 0, 0, 0, 0, 0, 0, 0, 0, 0,
    0,
];

/// The log array of 1, 2, 3.
const ONE_TWO_THREE: [u8; 24] = [
    0, 0, 0, 0, 0, 0, 0, 3, 2, 0, 0, 0, 0, 0, 0, 0, 0x6c, 0, 0, 0, 0, 0, 0, 0,
];

#[test]
fn reads_two_rows(rt: HostRuntime) -> Result<(), Fail> {
    let ends = BitView::open(&TWO_ROWS).ok_or("no bits")?;
    let view = RowsView::open(ends).ok_or("no rows")?;
    assert_eq!(rt; (view.len(), view.rows()), (3, 2));
    assert_eq!(rt; (view.row(0), view.row(1)), ((0, 2), (2, 3)));
    assert_eq!(rt;
        (view.left_of(0), view.left_of(1), view.left_of(2)),
        (0, 0, 1)
    );
    Ok(())
}

#[test]
fn reads_edges(rt: HostRuntime) -> Result<(), Fail> {
    let ends = BitView::open(&TWO_ROWS).ok_or("no bits")?;
    let rights = LogView::open(&ONE_TWO_THREE).ok_or("no numbers")?;
    let view = AdjacencyView::open(ends, rights).ok_or("no edges")?;
    assert_eq!(rt; (view.len(), view.rows()), (3, 2));
    assert_eq!(rt;
        (view.row(1), view.left_of(2), view.right(2)),
        ((2, 3), 1, 3)
    );
    let mut edges = view.iter_from(0);
    assert_eq!(rt; edges.next(), Some((0, 1)));
    assert_eq!(rt; edges.next(), Some((0, 2)));
    assert_eq!(rt; edges.next(), Some((1, 3)));
    assert_eq!(rt; edges.next(), None);
    assert_eq!(rt; view.iter_from(1).next(), Some((1, 3)));
    assert_eq!(rt; view.iter_from(2).next(), None);
    Ok(())
}

#[test]
fn refuses_a_row_without_end(rt: HostRuntime) -> Result<(), Fail> {
    let ends = BitView::open(&OPEN_ROW).ok_or("no bits")?;
    assert!(rt; RowsView::open(ends).is_none());
    Ok(())
}
