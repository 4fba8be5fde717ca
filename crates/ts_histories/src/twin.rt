//! The slow twin of a history: plain files, and what they list.

ghost use Rattle.std.specs.Prelude.{IfOk};
ghost use Rattle.ts_plain.specs.History.{AreHistory};

use crate::store::Layer;
use std::alloc::{AllocError, Global};
use std::test::Fail;
use ts_builder::Net;
use ts_model::{Triple, layer_text};
use ts_nt::write_triple;
use ts_plain::{PlainLayer, keeps_to_place, read_plain};

/// The lines of a net change in a plain file.
pub(crate) fn changes_of(alloc: Global, net: &Net) -> Result<Vec<u8>, AllocError> {
    let mut lines = Vec::new(alloc);
    append_lines(b"+ ", net.additions(), &mut lines)?;
    append_lines(b"- ", net.removals(), &mut lines)?;
    Ok(lines)
}

/// The plain file of a layer, whose parent is the layer before.
fn plain_file(alloc: Global, layer: &Layer) -> Result<Vec<u8>, AllocError> {
    let mut file = Vec::new(alloc);
    file.extend_from_slice(b"plain ")?;
    append_number(layer.number, &mut file)?;
    file.push(b' ')?;
    append_number(layer.number.saturating_sub(1), &mut file)?;
    file.push(b'\n')?;
    file.extend_from_slice(&layer.changes)?;
    Ok(file)
}

/// Appends the number of a layer, and `none` in the place of 0.
pub(crate) fn append_number(number: u32, into: &mut Vec<u8>) -> Result<(), AllocError> {
    if number == 0 {
        into.extend_from_slice(b"none")
    } else {
        into.extend_from_slice(&layer_text(number))
    }
}

/// Appends a line for each triple, with something before it.
pub(crate) fn append_lines(
    before: &[u8],
    triples: &[Triple],
    into: &mut Vec<u8>,
) -> Result<(), AllocError> {
    for triple in triples {
        into.extend_from_slice(before)?;
        write_triple(triple, into)?;
    }
    Ok(())
}

/// The layers of the plain files.
pub(crate) fn plain_layers(alloc: Global, layers: &[Layer]) -> Result<Vec<PlainLayer>, Fail>
    ensures { IfOk result (λ plain. AreHistory plain.items) }
{
    let mut plain = Vec::new(alloc);
    for layer in layers {
        plain = longer(alloc, plain, layer)?;
    }
    Ok(plain)
}

/// The layers with one more at their end, where it keeps to its place.
fn longer(alloc: Global, layers: Vec<PlainLayer>, layer: &Layer) -> Result<Vec<PlainLayer>, Fail>
    requires { AreHistory layers.items }
    ensures { IfOk result (λ layers. AreHistory layers.items) }
{
    let mut layers = layers;
    let plain = read_plain(alloc, &plain_file(alloc, layer)?, layer.number)?;
    if !keeps_to_place(layers.as_slice(), &plain) {
        return Err("the layer does not keep to its place".into());
    }
    layers.push(plain)?;
    Ok(layers)
}
