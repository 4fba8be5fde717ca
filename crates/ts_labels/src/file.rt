// A label's file.
ghost use Rattle.std.specs.Prelude.{◌≡◌, ◌≢◌, Option, Some, IfSome, IfNone, MatchOption, ℕ};
ghost use Rattle.ts_labels.specs.LabelFile.{IsLabel, IsLabelLayer, label_text, layer_or_none};
ghost use Rattle.ts_labels.specs.declared.label.Label.{Label};

use crate::Label;
use itoa::Buffer;
use ts_model::{layer_number, layer_text};
use ts_text::FixedText;

/// The most bytes of a label's file: the 20 digits of a version, the 8 of a layer, and two line feeds.
const ROOM: usize = 30;

/// The bytes of a label's file.
pub type LabelBytes = FixedText<ROOM>;

/// The file of a label: its version in decimal, and its layer or `none`, a line each.
pub fn label_bytes(label: Label) -> LabelBytes
    ensures { result ≡ label_text label }
{
    let mut buffer = Buffer::new();
    let file = LabelBytes::new()
        .with(buffer.format(label.version).as_bytes())
        .with(b"\n");
    match label.layer {
        Some(layer) => file.with(&layer_text(layer)).with(b"\n"),
        None => file.with(b"none\n"),
    }
}

/// The label whose file the bytes are, and `None` exactly where they are the file of none. A label names no layer 0.
pub fn label_of(bytes: &[u8]) -> Option<Label>
    // It has this file.
    ensures file { IfSome result (λ label. IsLabel label × (label_text label ≡ bytes.now)) }

    // And each label is read from its file.
    ensures read { (label : Label) → IsLabel label → label_text label ≡ bytes.now → result ≡ Some label }
{
    let label = read_lines(bytes)?;
    if label_bytes(label).bytes() == bytes {
        Some(label)
    } else {
        None
    }
}

/// What two lines read as, the spelling of whose version is not looked at.
fn read_lines(bytes: &[u8]) -> Option<Label>
    ensures layer { IfSome result (λ label. IsLabelLayer label.layer) }
    ensures read { (label : Label) → IsLabel label → label_text label ≡ bytes.now → result ≡ Some label }
{
    let Ok(text) = std::str::from_utf8(bytes) else {
        return None;
    };
    let (digits, rest) = text.split_once('\n')?;
    let word = rest.strip_suffix('\n')?;
    let Ok(version) = digits.parse() else {
        return None;
    };
    let layer = read_layer(word.as_bytes())?;
    Some(Label { version, layer })
}

/// The layer, or none, that a word names.
fn read_layer(word: &[u8]) -> Option<Option<u32>>
    ensures { MatchOption result ((layer : Option ℕ) → IsLabelLayer layer → layer_or_none layer ≢ word.now)
        (λ layer. IsLabelLayer layer × (layer_or_none layer ≡ word.now)) }
{
    if word == b"none".as_slice() {
        return Some(None);
    }
    match layer_number(word)? {
        0 => None,
        number => Some(Some(number)),
    }
}
