// What a session has in memory.
use crate::cursors::CursorTable;
use std::marker::Model;
use ts_labels::LabelTable;
use ts_plain::PlainLayer;

/// The layers of a folder, rising by number, its labels, the open cursors, and the newest layer that was made in this run. A clause
/// sees the state that they are.
#[derive(Drop)]
pub struct Store {
    pub(crate) layers: Vec<PlainLayer>,
    pub(crate) labels: LabelTable,
    pub(crate) cursors: CursorTable,
    pub(crate) last: Option<u32>,
}

impl Model for Store {
    ghost use Rattle.std.specs.Coded.{codes};
    ghost use Rattle.std.specs.FinMap.{code};
    ghost use Rattle.ts_store.specs.State.{State};
    ghost use Rattle.ts_store.specs.Store.{IsSound, state_of};

    ghost Value = { State };

    ghost coded = { Prim.hlevel (codes, code) };

    ghost view = { λ s. state_of s.layers.items s.labels.labels s.cursors s.last };

    ghost invariant = { λ s. IsSound s.layers.items s.labels.labels s.last };
}
