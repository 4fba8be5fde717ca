ghost use Rattle.std.specs.Prelude.{◌<◌};
ghost use Rattle.std.specs.FinMap.{len};

use super::*;
use std::test::Fail;
use ts_model::LabelName;

fn at(version: u64, layer: Option<u32>) -> Label {
    Label { version, layer }
}

#[test]
fn a_file_is_of_one_label(rt: HostRuntime) {
    assert_eq!(rt;
        label_bytes(at(7, Some(26))).bytes(),
        b"7\n0000001a\n".as_slice()
    );
    assert_eq!(rt; label_of(b"7\n0000001a\n"), Some(at(7, Some(26))));
    assert_eq!(rt; label_bytes(at(0, None)).bytes(), b"0\nnone\n".as_slice());
    assert_eq!(rt; label_of(b"0\nnone\n"), Some(at(0, None)));
    let greatest = b"18446744073709551615\nffffffff\n".as_slice();
    assert_eq!(rt;
        label_bytes(at(18446744073709551615, Some(4294967295))).bytes(),
        greatest
    );
    assert_eq!(rt;
        label_of(greatest),
        Some(at(18446744073709551615, Some(4294967295)))
    );
}

#[test]
fn nothing_else_is_a_file(rt: HostRuntime) {
    let others: [&[u8]; 14] = [
        b"",
        b"7\nnone",
        b"07\nnone\n",
        b"+7\nnone\n",
        b"18446744073709551616\nnone\n",
        b"7\n0000001A\n",
        b"7\n00000000\n",
        b"7\n000000001\n",
        b"7\n\n",
        b"\nnone\n",
        b"7\nnone\n\n",
        b"7\r\nnone\r\n",
        b" 7\nnone\n",
        b"7\nnon\xff\n",
    ];
    for other in others {
        assert_eq!(rt; label_of(other), None);
    }
}

#[test]
fn a_label_moves_once_from_each_version(rt: HostRuntime) -> Result<(), Fail> {
    let main = LabelName::of(b"main").ok_or("name")?;
    let mut table = LabelTable::new(rt.alloc());
    assert_eq!(rt; table.moved(&main, 0, None), Err(LabelError::NoLabel));
    let made = table.made(&main)?;
    assert_eq!(rt; made, at(0, None));
    assert_eq!(rt; table.get(&main), None);
    table.reserve()?;
    table.put(main.copy(), made);
    assert_eq!(rt; table.made(&main), Err(LabelError::LabelExists));
    let moved = table.moved(&main, 0, Some(1))?;
    assert_eq!(rt; moved, at(1, Some(1)));
    assert_eq!(rt; table.get(&main), Some(made));
    table.put(main.copy(), moved);
    assert_eq!(rt; table.moved(&main, 0, Some(1)), Err(LabelError::Stale(1)));
    assert_eq!(rt; table.get(&main), Some(at(1, Some(1))));
    Ok(())
}

#[test]
fn the_last_version_moves_no_more(rt: HostRuntime) -> Result<(), Fail> {
    let main = LabelName::of(b"main").ok_or("name")?;
    let mut table = LabelTable::new(rt.alloc());
    table.reserve()?;
    table.put(main.copy(), at(18446744073709551614, None));
    let last = table.moved(&main, 18446744073709551614, None)?;
    assert_eq!(rt; last, at(18446744073709551615, None));
    table.put(main.copy(), last);
    assert_eq!(rt;
        table.moved(&main, 18446744073709551615, None),
        Err(LabelError::VersionEnd)
    );
    assert_eq!(rt;
        table.moved(&main, 18446744073709551614, None),
        Err(LabelError::Stale(18446744073709551615))
    );
    Ok(())
}

// Gives a name a label that names no layer.
fn put(table: &mut LabelTable, name: &[u8], version: u64) -> Result<(), Fail> {
    let name = LabelName::of(name).ok_or("name")?;
    table.reserve()?;
    table.put(name, at(version, None));
    Ok(())
}

// Whether the label at a place is that of the name.
fn is_at(table: &LabelTable, i: usize, name: &[u8], version: u64) -> bool
    requires { i < len table.now.labels }
{
    let (found, label) = table.at(i);
    found.bytes() == name && label == at(version, None)
}

#[test]
fn labels_rise_by_their_names(rt: HostRuntime) -> Result<(), Fail> {
    let mut table = LabelTable::new(rt.alloc());
    put(&mut table, b"b", 0)?;
    put(&mut table, b"a", 1)?;
    put(&mut table, b"a-b", 2)?;
    put(&mut table, b"b", 3)?;
    assert_eq!(rt; table.len(), 3);
    assert!(rt; is_at(&table, 0, b"a", 1));
    assert!(rt; is_at(&table, 1, b"a-b", 2));
    assert!(rt; is_at(&table, 2, b"b", 3));
    Ok(())
}
