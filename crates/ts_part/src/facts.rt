//! What a part file says, as values.

use crate::header::PartKind;
use std::marker::Model;
use ts_model::Term;
use ts_plane::IdTriple;

/// What a part file says. Numbers of terms are counted from 1, and go on where those before stop.
#[derive(Debug, Drop)]
pub struct PartFacts {
    pub kind: PartKind,
    /// Of the layer, at least 1.
    pub number: u32,
    /// The parent of a layer; the layer up to which a rollup reaches.
    pub parent: Option<u32>,
    /// How many nodes and values that layer has, and how many predicates.
    pub terms_before: u64,
    pub predicates_before: u64,
    /// The new terms of each kind, in the order of their spellings.
    pub nodes: Vec<Term>,
    pub predicates: Vec<Term>,
    pub values: Vec<Term>,
    /// The triples that come and that go, rising.
    pub additions: Vec<IdTriple>,
    pub removals: Vec<IdTriple>,
    /// Of a rollup: for each of the nodes and then the values which of the new numbers it has, from 0.
    pub term_map: Vec<u64>,
    /// Of a rollup: for each of the predicates which of the new numbers it has, from 0.
    pub predicate_map: Vec<u64>,
}

impl Model for PartFacts {
    ghost use Rattle.ts_part.specs.Facts.{Facts};

    ghost Value = { Facts };

    ghost view = { λ f. record {
      kind = f.kind;
      number = f.number;
      parent = f.parent;
      terms_before = f.terms_before;
      predicates_before = f.predicates_before;
      nodes = f.nodes.items;
      predicates = f.predicates.items;
      values = f.values.items;
      additions = f.additions.items;
      removals = f.removals.items;
      term_map = f.term_map.items;
      predicate_map = f.predicate_map.items;
    } };
}
