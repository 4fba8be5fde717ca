// What a label says.

/// A label: its version, which is how often it moved, and the layer that it names. A new label has version 0 and names none.
#[derive(Clone, Copy, Debug, PartialEq, Eq)]
pub struct Label {
    pub version: u64,
    pub layer: Option<u32>,
}
