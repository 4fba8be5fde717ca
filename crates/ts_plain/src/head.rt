ghost use Rattle.std.specs.Prelude.{◌≢◌, ◌≡◌, ◌<◌, ◌≤◌, ◌^◌, ◌∷◌, ◌++◌, ℕ, List, IfSome, IfNone, Option};
ghost use Rattle.ts_model.specs.LayerText.{layer_text};
ghost use Rattle.ts_plain.specs.PlainFile.{head_line, parent_text};
ghost use Rattle.ts_plain.specs.PlainReading.{IsParent};

use crate::lines::behind;
use ts_model::{layer_number, layer_text};

/// The head of a plain file: the parent that it names, and the bytes behind it.
#[derive(Clone, Copy)]
pub struct Head<'a> {
    pub parent: Option<u32>,
    pub rest: &'a [u8],
}

/// The number of a layer, and the bytes behind the line that it ends.
#[derive(Clone, Copy)]
struct Named<'a> {
    layer: u32,
    rest: &'a [u8],
}

/// The head of the plain file of a layer of that number, at the front of the bytes. No layer has the number 0.
pub fn read_head(bytes: &[u8], number: u32) -> Option<Head<'_>>
    ensures some { IfSome result (λ head. (1 ≤ number) × IsParent number head.parent × (bytes.now ≡ head_line number head.parent ++ head.rest.now)) }
    ensures none { IfNone result ((parent : Option ℕ) (rest : List ℕ) → 1 ≤ number → IsParent number parent → bytes.now ≢ head_line number parent ++ rest) }
{
    if number == 0 {
        return None;
    }
    let named = behind(b"plain ", bytes)?;
    let spaced = behind(layer_text(number).as_slice(), named)?;
    let parented = behind(b" ", spaced)?;
    read_parent(parented, number)
}

/// The parent of a layer of that number, at the end of its line.
fn read_parent(bytes: &[u8], number: u32) -> Option<Head<'_>>
    ensures some { IfSome result (λ head. IsParent number head.parent × (bytes.now ≡ parent_text head.parent ++ 0x0A ∷ head.rest.now)) }
    ensures none { IfNone result ((parent : Option ℕ) (rest : List ℕ) → IsParent number parent → bytes.now ≢ parent_text parent ++ 0x0A ∷ rest) }
{
    if let Some(rest) = behind(b"none\n", bytes) {
        return Some(Head { parent: None, rest });
    }
    let named = read_layer(bytes)?;
    if named.layer == 0 || named.layer >= number {
        return None;
    }
    Some(Head {
        parent: Some(named.layer),
        rest: named.rest,
    })
}

/// The number of a layer at the end of its line.
fn read_layer(bytes: &[u8]) -> Option<Named<'_>>
    ensures some { IfSome result (λ named. (named.layer < 2 ^ 32) × (bytes.now ≡ layer_text named.layer ++ 0x0A ∷ named.rest.now)) }
    ensures none { IfNone result ((layer : ℕ) (rest : List ℕ) → layer < 2 ^ 32 → bytes.now ≢ layer_text layer ++ 0x0A ∷ rest) }
{
    if bytes.len() < 8 {
        return None;
    }
    let (text, ended) = bytes.split_at(8);
    let layer = layer_number(text)?;
    let rest = behind(b"\n", ended)?;
    Some(Named { layer, rest })
}
