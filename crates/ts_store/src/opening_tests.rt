// Folders that open, and those that are damaged.
use crate::test_sessions::{Asked, at, folder, tells};
use crate::{Session, Stop};
use std::alloc::Global;
use std::test::Fail;

/// The first layer of most folders here.
const FIRST: (&str, &str) = ("00000001.layer", "plain 00000001 none\n+ <a> <p> <b> .\n");

/// Whether a folder with these files is damaged at this one.
fn is_damaged(alloc: Global, files: &[(&str, &str)], name: &str) -> Result<bool, Fail> {
    let mut site = folder(alloc, files)?;
    match Session::open(alloc, &mut site) {
        Err(Stop::Damaged(found)) => Ok(found.bytes() == name.as_bytes()),
        _ => Ok(false),
    }
}

/// A removal that the parent lacks, an addition that it has, a parent that doesn't stand, parents that don't stand before the
/// layer, and a removal in a base.
#[test]
fn a_layer_that_keeps_to_no_place_is_damaged(rt: HostRuntime) -> Result<(), Fail> {
    for (name, file) in [
        (
            "00000002.layer",
            "plain 00000002 00000001\n- <c> <p> <b> .\n",
        ),
        (
            "00000002.layer",
            "plain 00000002 00000001\n+ <a> <p> <b> .\n",
        ),
        ("00000003.layer", "plain 00000003 00000002\n"),
        ("00000002.layer", "plain 00000002 00000002\n"),
        ("00000002.layer", "plain 00000002 00000003\n"),
        ("00000002.layer", "plain 00000002 00000000\n"),
        ("00000002.layer", "plain 00000002 none\n- <a> <p> <b> .\n"),
    ] {
        assert!(rt;
            is_damaged(rt.alloc(), &[FIRST, (name, file)], name)?,
            "{file}"
        );
    }
    Ok(())
}

/// A child whose file stands before that of its parent.
#[test]
fn a_parent_has_a_lesser_number(rt: HostRuntime) -> Result<(), Fail> {
    let files = [
        ("00000001.layer", "plain 00000001 00000002\n"),
        ("00000002.layer", "plain 00000002 none\n"),
    ];
    assert!(rt; is_damaged(rt.alloc(), &files, "00000001.layer")?);
    Ok(())
}

/// What an ancestor has or lacks isn't what the parent has or lacks.
#[test]
fn a_layer_keeps_to_its_own_parent(rt: HostRuntime) -> Result<(), Fail> {
    let second = (
        "00000002.layer",
        "plain 00000002 00000001\n+ <c> <p> <b> .\n- <a> <p> <b> .\n",
    );
    for file in [
        "plain 00000003 00000002\n- <a> <p> <b> .\n",
        "plain 00000003 00000002\n+ <c> <p> <b> .\n",
        "plain 00000003 00000001\n- <c> <p> <b> .\n",
        "plain 00000003 00000001\n+ <a> <p> <b> .\n",
    ] {
        let files = [FIRST, second, ("00000003.layer", file)];
        assert!(rt; is_damaged(rt.alloc(), &files, "00000003.layer")?, "{file}");
    }
    Ok(())
}

/// Of several the layer of the least number is named, and layers before rollups and labels.
#[test]
fn the_first_damaged_file_is_named(rt: HostRuntime) -> Result<(), Fail> {
    let lacks = (
        "00000002.layer",
        "plain 00000002 00000001\n- <c> <p> <b> .\n",
    );
    let orphan = ("00000004.layer", "plain 00000004 00000003\n");
    let cut = ("0000000a.layer", "plain 0000000a none");
    let rollup = ("00000001.rollup", "");
    let label = ("a.label", "");
    assert!(rt; is_damaged(rt.alloc(), &[label, orphan, cut, lacks, FIRST], lacks.0)?);
    assert!(rt; is_damaged(rt.alloc(), &[cut, rollup, orphan, FIRST], orphan.0)?);
    assert!(rt; is_damaged(rt.alloc(), &[label, rollup, cut, FIRST], cut.0)?);
    assert!(rt; is_damaged(rt.alloc(), &[label, rollup, FIRST], rollup.0)?);
    assert!(rt; is_damaged(rt.alloc(), &[FIRST, label], label.0)?);
    Ok(())
}

/// A label's file of another form, and one that names a layer that doesn't stand.
#[test]
fn a_label_of_no_form_or_no_layer_is_damaged(rt: HostRuntime) -> Result<(), Fail> {
    for file in [
        "",
        "0\nnone",
        "0\nnone\n\n",
        "00\nnone\n",
        "-1\nnone\n",
        "18446744073709551616\nnone\n",
        "1\n00000000\n",
        "1\n00000002\n",
        "1\n0000000A\n",
        "0\r\nnone\r\n",
    ] {
        let files = [("main.label", file), FIRST];
        assert!(rt; is_damaged(rt.alloc(), &files, "main.label")?, "{file}");
    }
    Ok(())
}

/// Labels come behind layers and rollups, and of several the first by its name's bytes is named: `b` before `b-c`, whose file's
/// name is the lesser one.
#[test]
fn the_first_damaged_label_is_named(rt: HostRuntime) -> Result<(), Fail> {
    let whole = ("a.label", "0\nnone\n");
    let cut = ("b-c.label", "0\nnone");
    let astray = ("b.label", "1\n00000002\n");
    let rollup = ("00000001.rollup", "");
    assert!(rt; is_damaged(rt.alloc(), &[cut, astray, whole, FIRST], astray.0)?);
    assert!(rt; is_damaged(rt.alloc(), &[cut, whole, FIRST], cut.0)?);
    assert!(rt; is_damaged(rt.alloc(), &[astray, rollup, FIRST], rollup.0)?);
    assert!(rt;
        is_damaged(
            rt.alloc(),
            &[cut, ("00000002.layer", ""), FIRST],
            "00000002.layer"
        )?
    );
    Ok(())
}

/// The parent of the fourth layer isn't the one before it, and one number is left out.
#[test]
fn a_folder_of_children_opens(rt: HostRuntime) -> Result<(), Fail> {
    let files = [
        ("00000005.layer", "plain 00000005 00000001\n"),
        ("new.tmp", "plain"),
        (
            "00000002.layer",
            "plain 00000002 00000001\n+ <c> <p> <b> .\n- <a> <p> <b> .\n",
        ),
        (
            "00000003.layer",
            "plain 00000003 00000002\n+ <a> <p> <b> .\n- <c> <p> <b> .\n",
        ),
        FIRST,
    ];
    let commands = [Asked::List(at(5)), Asked::List(at(3)), Asked::Layers];
    assert!(rt;
        tells(
            rt.alloc(),
            &files,
            &commands,
            "<a> <p> <b> .\ntotal 1\n<a> <p> <b> .\ntotal 1\nlayer 00000001 parent none\nlayer 00000002 parent 00000001\nlayer 00000003 parent 00000002\nlayer 00000005 parent 00000001\ntotal 4\n"
        )?
    );
    Ok(())
}
