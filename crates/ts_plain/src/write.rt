ghost use Rattle.std.specs.Prelude.{◌≡◌, ◌++◌, All, IfOk, OnOk};
ghost use Rattle.ts_model.specs.TextTriple.{IsTriple};
ghost use Rattle.ts_plain.specs.PlainFile.{plain_file, head_line, change_line, change_lines};
ghost use Rattle.ts_plain.specs.PlainRules.{KeepsPlainRules};

use std::alloc::{AllocError, Global};
use ts_model::{Triple, layer_text};
use ts_nt::write_triple;

/// A layer: its number, its parent's where it has one, and its changes.
#[derive(Debug, Drop)]
pub struct PlainLayer {
    pub number: u32,
    pub parent: Option<u32>,
    /// Rising.
    pub additions: Vec<Triple>,
    /// Rising. A layer without a parent has none.
    pub removals: Vec<Triple>,
}

/// The plain file of a layer. Its triples are then known to be of terms.
pub fn write_plain(alloc: Global, layer: &PlainLayer) -> Result<Vec<u8>, AllocError>
    requires { KeepsPlainRules layer.now.number layer.now.parent
        layer.now.additions.items layer.now.removals.items }
    ensures file { IfOk result (λ file.
        file.items ≡ plain_file layer.now.number layer.now.parent
        layer.now.additions.items layer.now.removals.items) }
    ensures terms { OnOk result (All IsTriple layer.now.additions.items × All IsTriple layer.now.removals.items) }
{
    let mut file = Vec::new(alloc);
    write_head(layer.number, layer.parent, &mut file)?;
    write_changes(b'+', layer.additions.as_slice(), &mut file)?;
    write_changes(b'-', layer.removals.as_slice(), &mut file)?;
    Ok(file)
}

fn write_head(number: u32, parent: Option<u32>, into: &mut Vec<u8>) -> Result<(), AllocError>
    ensures { OnOk result (into.new.items ≡ into.old.items ++ head_line number parent) }
{
    into.extend_from_slice(b"plain ")?;
    into.extend_from_slice(layer_text(number).as_slice())?;
    into.push(b' ')?;
    match parent {
        Some(parent) => into.extend_from_slice(layer_text(parent).as_slice())?,
        None => into.extend_from_slice(b"none")?,
    }
    into.push(b'\n')?;
    Ok(())
}

fn write_changes(sign: u8, triples: &[Triple], into: &mut Vec<u8>) -> Result<(), AllocError>
    ensures lines { OnOk result (into.new.items ≡ into.old.items ++ change_lines sign triples.now) }
    ensures terms { OnOk result (All IsTriple triples.now) }
{
    for triple in triples {
        write_change(sign, triple, into)?;
    }
    Ok(())
}

fn write_change(sign: u8, triple: &Triple, into: &mut Vec<u8>) -> Result<(), AllocError>
    ensures line { OnOk result (into.new.items ≡ into.old.items ++ change_line sign triple.now) }
    ensures terms { OnOk result (IsTriple triple.now) }
{
    into.push(sign)?;
    into.push(b' ')?;
    write_triple(triple, into)
}
