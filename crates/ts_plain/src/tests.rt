ghost use Rattle.std.specs.Prelude.{IfOk};
ghost use Rattle.ts_plain.specs.History.{AreHistory};

use crate::{
    NetChange, PlainLayer, changes_of, content_of, holds, keeps_to_place, layer_at, listing_of,
    net_change, plain_listing, read_plain, totals_after,
};
use std::alloc::{AllocError, Global};
use std::test::Fail;
use ts_model::{SignedTriple, Totals, Triple, layer_number};
use ts_nt::{read_line, write_triple};

/// Layers 1 to 5. Layer 3 has no changes; 2 and 5 are children of 1, so the parent of 5 isn't the number before it; and
/// `<c>`, which layer 2 leaves without a triple, comes back in layer 4.
const FILES: &[&str] = &[
    "plain 00000001 none\n+ <c> <p> <b> .\n+ <q> <q> \"<q>\" .\n",
    "plain 00000002 00000001\n+ <a> <p> <b> .\n- <c> <p> <b> .\n",
    "plain 00000003 00000002\n",
    "plain 00000004 00000003\n+ <a> <p> <d> .\n+ <c> <p> <d> .\n",
    "plain 00000005 00000001\n- <q> <q> \"<q>\" .\n",
];

/// The layers of these files.
fn history(alloc: Global, files: &[&str]) -> Result<Vec<PlainLayer>, Fail>
    ensures { IfOk result (λ layers. AreHistory layers.items) }
{
    let mut layers = Vec::new(alloc);
    for file in files {
        layers = longer(alloc, layers, file)?;
    }
    Ok(layers)
}

/// The layers with that of a file at their end, where it keeps to its place.
fn longer(alloc: Global, layers: Vec<PlainLayer>, file: &str) -> Result<Vec<PlainLayer>, Fail>
    requires { AreHistory layers.items }
    ensures { IfOk result (λ layers. AreHistory layers.items) }
{
    let mut layers = layers;
    let number = number_in(file)?;
    let layer = read_plain(alloc, file.as_bytes(), number)?;
    if !keeps_to_place(layers.as_slice(), &layer) {
        return Err("the layer does not keep to its place".into());
    }
    layers.push(layer)?;
    Ok(layers)
}

/// The number in the head of a plain file.
fn number_in(file: &str) -> Result<u32, Fail> {
    let name = file.as_bytes().get(6..14).ok_or("no name")?;
    Ok(layer_number(name).ok_or("no number")?)
}

fn written(alloc: Global, triples: &[Triple]) -> Result<Vec<u8>, AllocError> {
    let mut text = Vec::new(alloc);
    for triple in triples {
        write_triple(triple, &mut text)?;
    }
    Ok(text)
}

fn written_lent(alloc: Global, triples: &[&Triple]) -> Result<Vec<u8>, AllocError> {
    let mut text = Vec::new(alloc);
    for triple in triples {
        write_triple(triple, &mut text)?;
    }
    Ok(text)
}

/// The listing of a layer as it is copied, and the same as it is lent.
fn listed(alloc: Global, layers: &[PlainLayer], number: u32) -> Result<Vec<u8>, Fail>
    requires { AreHistory layers.now }
{
    if layer_at(layers, number).is_none() {
        return Err("no layer".into());
    }
    let text = written(alloc, plain_listing(alloc, layers, number)?.as_slice())?;
    let lent = written_lent(alloc, listing_of(alloc, layers, number)?.as_slice())?;
    if lent.as_slice() != text.as_slice() {
        return Err("two listings".into());
    }
    Ok(text)
}

/// What the layers list, from layer to layer.
fn all_listed(alloc: Global, files: &[&str]) -> Result<Vec<u8>, Fail> {
    let layers = history(alloc, files)?;
    let mut text = Vec::new(alloc);
    for number in 1..6 {
        text.extend_from_slice(listed(alloc, layers.as_slice(), number)?.as_slice())?;
        text.push(b'\n')?;
    }
    Ok(text)
}

/// A term that comes back keeps its birth.
#[test]
fn layers_are_listed_in_birth_order(rt: HostRuntime) -> Result<(), Fail> {
    let text = all_listed(rt.alloc(), FILES)?;
    let wanted = "<c> <p> <b> .\n<q> <q> \"<q>\" .\n
<q> <q> \"<q>\" .\n<a> <p> <b> .\n
<q> <q> \"<q>\" .\n<a> <p> <b> .\n
<c> <p> <d> .\n<q> <q> \"<q>\" .\n<a> <p> <b> .\n<a> <p> <d> .\n
<c> <p> <b> .\n\n";
    assert_eq!(rt; text.as_slice(), wanted.as_bytes());
    Ok(())
}

/// What a layer adds in birth order, the content of a layer in the order of its bytes, and what is asked of triples.
fn told(alloc: Global, files: &[&str]) -> Result<(Vec<u8>, Vec<u8>, Totals), Fail> {
    let layers = history(alloc, files)?;
    let layers = layers.as_slice();
    let Some(layer) = layer_at(layers, 4) else {
        return Err("no layer".into());
    };
    let added = changes_of(alloc, layers, 4, layer.additions.as_slice())?;
    let added = written_lent(alloc, added.as_slice())?;
    let content = content_of(alloc, layers, 4)?;
    let totals = totals_after(alloc, layers, Some(4), &[])?;
    Ok((added, written(alloc, content.as_slice())?, totals))
}

#[test]
fn changes_content_and_totals(rt: HostRuntime) -> Result<(), Fail> {
    let (added, content, totals) = told(rt.alloc(), FILES)?;
    assert_eq!(rt;
        added.as_slice(),
        b"<c> <p> <d> .\n<a> <p> <d> .\n".as_slice()
    );
    let wanted = "<a> <p> <b> .\n<a> <p> <d> .\n<c> <p> <d> .\n<q> <q> \"<q>\" .\n";
    assert_eq!(rt; content.as_slice(), wanted.as_bytes());
    assert_eq!(rt; totals.terms, 6);
    assert_eq!(rt; totals.predicates, 2);
    Ok(())
}

fn held(alloc: Global, number: u32) -> Result<bool, Fail> {
    let layers = history(alloc, FILES)?;
    let line = read_line(alloc, b"<c> <p> <b> .")?.ok_or("no triple")?;
    Ok(holds(layers.as_slice(), number, &line.triple))
}

/// The newest layer that names a triple decides.
#[test]
fn triples_are_held(rt: HostRuntime) -> Result<(), Fail> {
    let alloc = rt.alloc();
    for (number, wanted) in [(1, true), (2, false), (4, false), (5, true), (9, false)] {
        assert_eq!(rt; held(alloc, number)?, wanted);
    }
    Ok(())
}

fn body(alloc: Global, text: &str) -> Result<Vec<SignedTriple>, Fail> {
    let mut body = Vec::new(alloc);
    for line in text.lines() {
        body.push(read_line(alloc, line.as_bytes())?.ok_or("no triple")?)?;
    }
    Ok(body)
}

/// What a body adds and removes over layer 2.
fn changed(alloc: Global, text: &str) -> Result<Vec<u8>, Fail> {
    let layers = history(alloc, FILES)?;
    let body = body(alloc, text)?;
    let NetChange {
        additions,
        removals,
    } = net_change(alloc, layers.as_slice(), Some(2), body.as_slice())?;
    let mut text = written(alloc, additions.as_slice())?;
    text.extend_from_slice(b"less\n")?;
    text.extend_from_slice(written(alloc, removals.as_slice())?.as_slice())?;
    Ok(text)
}

/// A triple that is added and removed in one body, in both orders; one that is there already; one that isn't there.
#[test]
fn bodies_change_what_is_left_to_change(rt: HostRuntime) -> Result<(), Fail> {
    let alloc = rt.alloc();
    for (text, wanted) in [
        ("- <a> <p> <b> .\n<a> <p> <b> .", "less\n"),
        ("<a> <p> <b> .\n- <a> <p> <b> .", "less\n<a> <p> <b> .\n"),
        ("- <c> <p> <b> .\n<c> <p> <b> .", "<c> <p> <b> .\nless\n"),
        ("<c> <p> <b> .\n- <c> <p> <b> .", "less\n"),
    ] {
        let seen = changed(alloc, text)?;
        assert_eq!(rt; seen.as_slice(), wanted.as_bytes(), "{text}");
    }
    Ok(())
}

/// Whether the second file is that of a layer which keeps to its place above the first.
fn keeps(alloc: Global, base: &str, file: &str) -> Result<bool, Fail> {
    let layers = history(alloc, &[base])?;
    let layer = read_plain(alloc, file.as_bytes(), number_in(file)?)?;
    Ok(keeps_to_place(layers.as_slice(), &layer))
}

/// A child, and then a removal that the parent lacks, an addition that it has, a parent that doesn't stand, and the number
/// of the base.
#[test]
fn layers_keep_to_their_places(rt: HostRuntime) -> Result<(), Fail> {
    let alloc = rt.alloc();
    let base = "plain 00000001 none\n+ <a> <p> <b> .\n";
    for (file, wanted) in [
        (
            "plain 00000002 00000001\n+ <c> <p> <b> .\n- <a> <p> <b> .\n",
            true,
        ),
        ("plain 00000002 00000001\n- <c> <p> <b> .\n", false),
        ("plain 00000002 00000001\n+ <a> <p> <b> .\n", false),
        ("plain 00000003 00000002\n", false),
        ("plain 00000001 none\n", false),
    ] {
        assert_eq!(rt; keeps(alloc, base, file)?, wanted, "{file}");
    }
    Ok(())
}
