// Histories that are made and not written out: a chain of 64 parts, and a term at its limit.
use crate::agree::all_of;
use crate::store::Store;
use std::alloc::{AllocError, Global};
use std::str;
use std::test::Fail;

/// The line of the triple of a number.
fn append_line(n: u8, into: &mut Vec<u8>) -> Result<(), AllocError> {
    into.extend_from_slice(b"<s")?;
    into.push(b'0' + n / 10)?;
    into.push(b'0' + n % 10)?;
    into.extend_from_slice(b"> <p> <o> .\n")
}

/// Makes a layer of each number's triple, from 63 down, and gives what the last one lists: the subjects go down as they were born.
fn many_layers(alloc: Global, store: &mut Store) -> Result<Vec<u8>, Fail> {
    let mut listing = Vec::new(alloc);
    for n in (0..64u8).rev() {
        let mut line = Vec::new(alloc);
        append_line(n, &mut line)?;
        store.commit(alloc, text_of(&line)?)?;
        listing.extend_from_slice(&line)?;
    }
    Ok(listing)
}

fn text_of(bytes: &[u8]) -> Result<&str, Fail> {
    match str::from_utf8(bytes) {
        Ok(text) => Ok(text),
        Err(_) => Err("no text".into()),
    }
}

/// Whether the last layer is read from so many parts, and lists this.
fn lists(alloc: Global, store: &Store, parts: usize, listing: &[u8]) -> Result<bool, Fail> {
    let chain = store.chain(alloc, store.last())?.ok_or("no layer")?;
    Ok(
        chain.parts().count() == parts
            && chain.counts().triples == 64
            && all_of(alloc, &chain)?.as_slice() == listing,
    )
}

#[test]
fn a_chain_of_64_parts(rt: HostRuntime) -> Result<(), Fail> {
    let alloc = rt.alloc();
    let mut store = Store::new(alloc);
    let listing = many_layers(alloc, &mut store)?;
    assert!(rt; lists(alloc, &store, 64, &listing)?);
    store.roll(alloc, 40, 20)?;
    assert!(rt; lists(alloc, &store, 45, &listing)?);
    store.roll(alloc, 63, 0)?;
    assert!(rt; lists(alloc, &store, 2, &listing)?);
    Ok(())
}

#[test]
fn an_object_at_its_limit(rt: HostRuntime) -> Result<(), Fail> {
    let alloc = rt.alloc();
    let mut line = Vec::new(alloc);
    line.extend_from_slice(b"<a> <p> <")?;
    let inside = vec![in alloc; b'x'; 1_048_574]?;
    line.extend_from_slice(&inside)?;
    line.extend_from_slice(b"> .\n")?;
    let mut store = Store::new(alloc);
    store.commit(alloc, text_of(&line)?)?;
    let chain = store.chain(alloc, 1)?.ok_or("no layer")?;
    assert_eq!(rt; all_of(alloc, &chain)?, line);
    Ok(())
}
