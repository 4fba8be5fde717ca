// The labels of a store.
ghost use Rattle.std.specs.Prelude.{◌≡◌, ◌<◌, ◌≤◌, ◌-◌, if◌then◌else◌, false, Some, slice_get, IsTrue, OnOk, OnErr};
ghost use Rattle.std.specs.FinMap.{contains_key, empty, entries, get, insert, is_sorted, len};
ghost use Rattle.std.specs.Ordering.{nat_cmp};
ghost use Rattle.std.specs.Cmp.Lexicographic.{slice_cmp};
ghost use Rattle.ts_labels.specs.Moves.{made_label, moved_label};
ghost use Rattle.ts_labels.specs.Place.{IsPlaceOf};

use crate::{Label, LabelError};
use std::alloc::{AllocError, Global};
use std::marker::Model;
use ts_model::LabelName;

/// The labels of a store, each under its name, with room for more. A clause sees the map, and for how many more names there
/// is room.
///
/// A search is O(log n), and one more name moves those behind it.
#[derive(Debug, Drop)]
pub struct LabelTable {
    // Rising by the bytes of the names.
    entries: Vec<(LabelName, Label)>,
}

impl Model for LabelTable {
    ghost use Rattle.std.specs.Prelude.{ℕ, ◌-◌, IsTrue, vec_len, vec_capacity};
    ghost use Rattle.std.specs.Coded.{codes};
    ghost use Rattle.std.specs.FinMap.{code, from_sorted, is_sorted};
    ghost use Rattle.std.specs.Ordering.{nat_cmp};
    ghost use Rattle.std.specs.Cmp.Lexicographic.{slice_cmp};
    ghost use Rattle.ts_labels.specs.Labels.{Table};

    ghost Value = { Table };

    ghost coded = { Prim.hlevel (codes, code) };

    ghost view = { λ t. record { labels = from_sorted t.entries.items; spare = vec_capacity t.entries - vec_len t.entries } };

    ghost invariant = { λ t. IsTrue (is_sorted (slice_cmp nat_cmp) t.entries.items) };
}

impl LabelTable {
    /// No labels.
    pub fn new(alloc: Global) -> LabelTable
        ensures { result.labels ≡ empty }
    {
        LabelTable {
            entries: Vec::new(alloc),
        }
    }

    /// How many labels there are.
    pub fn len(&self) -> usize
        ensures { result ≡ len self.now.labels }
    {
        self.entries.as_slice().len()
    }

    /// A label with its name, the first by the bytes of the names at 0.
    pub fn at(&self, i: usize) -> (LabelName, Label)
        requires { i < len self.now.labels }
        ensures { Some result ≡ slice_get (entries self.now.labels) i }
    {
        let (name, label) = &self.entries.as_slice()[i];
        (name.copy(), *label)
    }

    /// The label of a name, and `None` exactly where none has it.
    pub fn get(&self, name: &LabelName) -> Option<Label>
        ensures { result ≡ get self.now.labels name.now }
    {
        match place_of(self.entries.as_slice(), name) {
            Ok(place) => Some(self.entries[place].1),
            Err(_) => None,
        }
    }

    /// The label that `name` has once it is moved from a version to a layer, or to none. Nothing changes.
    pub fn moved(
        &self,
        name: &LabelName,
        version: u64,
        to: Option<u32>,
    ) -> Result<Label, LabelError>
        ensures { result ≡ moved_label (get self.now.labels name.now) version to }
    {
        let Some(label) = self.get(name) else {
            return Err(LabelError::NoLabel);
        };
        if label.version != version {
            return Err(LabelError::Stale(label.version));
        }
        match version.checked_add(1) {
            Some(next) => Ok(Label {
                version: next,
                layer: to,
            }),
            None => Err(LabelError::VersionEnd),
        }
    }

    /// The label that `name` has once it is made. Nothing changes.
    pub fn made(&self, name: &LabelName) -> Result<Label, LabelError>
        ensures { result ≡ made_label (get self.now.labels name.now) }
    {
        match self.get(name) {
            Some(_) => Err(LabelError::LabelExists),
            None => Ok(Label {
                version: 0,
                layer: None,
            }),
        }
    }

    /// Makes room for one more name, where there is none.
    pub fn reserve(&mut self) -> Result<(), AllocError>
        ensures labels { self.new.labels ≡ self.old.labels }
        ensures room { OnOk result (1 ≤ self.new.spare) }
        ensures full { OnErr result (self.old.spare ≡ 0) }
    {
        self.entries.reserve(1)
    }

    /// Gives a name this label, in the place of the one that it has. Only a new name needs room.
    pub fn put(&mut self, name: LabelName, label: Label)
        requires { contains_key self.old.labels name ≡ false → 1 ≤ self.old.spare }
        ensures labels { self.new.labels ≡ insert self.old.labels name label }
        ensures spare { self.new.spare ≡ (if contains_key self.old.labels name then self.old.spare else self.old.spare - 1) }
    {
        match place_of(self.entries.as_slice(), &name) {
            Ok(place) => self.entries[place].1 = label,
            Err(place) => self.entries.insert(place, (name, label)).unwrap(),
        }
    }
}

/// Where the entry of a name stands, or the place that it would have.
fn place_of(entries: &[(LabelName, Label)], name: &LabelName) -> Result<usize, usize>
    requires { IsTrue (is_sorted (slice_cmp nat_cmp) entries.now) }
    ensures { IsPlaceOf name.now entries.now result }
{
    entries.binary_search_by(|entry| entry.0.bytes().cmp(name.bytes()))
}
