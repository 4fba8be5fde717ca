//! The names of a chain's parts.

ghost use Rattle.std.specs.Prelude.{◌≡◌, map};
ghost use Rattle.std.specs.Iterator.{YieldsFirst, item_count};
ghost use Rattle.ts_chain.specs.Named.{name_of};

use std::marker::Model;
use std::rc::Rc;
use ts_part::{Part, PartKind};

/// A part by its kind, its layer, and the layer that it goes down to: a layer's parent, or the layer up to
/// which a rollup reaches.
#[derive(Clone, Copy, PartialEq, Eq, Debug)]
pub struct PartName {
    pub kind: PartKind,
    pub number: u32,
    pub parent: Option<u32>,
}

/// Goes over the names of a chain's parts, newest first. It takes no memory.
#[derive(Drop)]
pub struct Parts<'a> {
    parts: &'a [Rc<Part>],
}

impl<'a> Model for Parts<'a> {
    ghost use Rattle.std.specs.Prelude.{List, map};
    ghost use Rattle.ts_chain.specs.declared.parts.PartName.{PartName};
    ghost use Rattle.ts_chain.specs.Named.{name_of};

    ghost Value = { List PartName };

    ghost view = { λ p. map (λ part. name_of part.value.facts) p.parts.now };
}

impl<'a> Parts<'a> {
    pub(crate) fn of(parts: &'a [Rc<Part>]) -> Parts<'a>
        ensures { result ≡ map (λ part. name_of part.value.facts) parts.now }
    {
        Parts { parts }
    }
}

impl<'a> Iterator for Parts<'a> {
    type Item = PartName;

    ghost next_gives = { YieldsFirst (λ items. items) };

    ghost remaining = { item_count (λ items. items) };

    fn next(&mut self) -> Option<PartName> {
        let (part, rest) = self.parts.split_first()?;
        self.parts = rest;
        let header = part.header();
        Some(PartName {
            kind: header.kind,
            number: header.number,
            parent: header.parent,
        })
    }
}
