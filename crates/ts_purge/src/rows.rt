//! Layers and files as rows.

/// A layer of a store: its number and its parent's, `None` for a base.
#[derive(Clone, Copy, Debug, PartialEq, Eq)]
pub struct LayerRow {
    pub number: u32,
    pub parent: Option<u32>,
}

/// What kind of file goes.
#[derive(Clone, Copy, Debug, PartialEq, Eq)]
pub enum DropKind {
    Rollup,
    Layer,
}

/// A file that goes: the rollup of the layer of this number, or the layer itself.
#[derive(Clone, Copy, Debug, PartialEq, Eq)]
pub struct DropRow {
    pub kind: DropKind,
    pub number: u32,
}
