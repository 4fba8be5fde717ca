// What a user asks for.
ghost use Rattle.std.specs.Prelude.{◌≡◌};

use std::marker::Model;
use ts_model::{CursorName, LabelName, Pattern, SignedTriple, Triple};

/// The triples that the lines of a body name, with their signs, in the order of the lines.
#[derive(Debug, Drop)]
pub struct Body {
    signed: Vec<SignedTriple>,
}

impl Model for Body {
    ghost use Rattle.std.specs.Prelude.{List};
    ghost use Rattle.ts_model.specs.declared.signed.SignedTriple.{SignedTriple};

    ghost Value = { List SignedTriple };

    ghost view = { λ body. body.signed.items };
}

impl Body {
    pub fn of(signed: Vec<SignedTriple>) -> Body
        ensures { result ≡ signed.items }
    {
        Body { signed }
    }

    pub fn signed(&self) -> &[SignedTriple]
        ensures { result.now ≡ self.now }
    {
        &self.signed
    }

    /// The triples themselves.
    pub fn into_signed(self) -> Vec<SignedTriple>
        ensures { result.items ≡ self }
    {
        self.signed
    }
}

/// A layer as a command names it.
#[derive(Clone, Copy, Debug)]
pub enum LayerRef {
    Number(u32),
    /// The newest layer that was made in this run.
    Last,
}

/// A layer, as a command refers to it.
#[derive(Debug, Drop)]
pub enum Ref {
    Layer(LayerRef),
    /// The layer that a label names.
    Label(LabelName),
}

impl Ref {
    /// An equal one.
    pub fn copy(&self) -> Ref
        ensures { result ≡ self.now }
    {
        match self {
            Ref::Layer(layer) => Ref::Layer(*layer),
            Ref::Label(name) => Ref::Label(name.copy()),
        }
    }
}

/// A command, with its body where it has one.
#[derive(Debug, Drop)]
pub enum Command {
    /// The line of a script is within its limit and no command.
    BadCommand {
        line: u64,
    },
    /// The body's first line at fault is no line of a triple.
    BadTriple {
        line: u64,
    },
    /// A command line is over its limit, or the body's first line at fault or a term of it is.
    TooLong {
        line: u64,
    },
    /// A script ends within a body that has no line at fault. The command's line.
    Unfinished {
        line: u64,
    },
    /// Makes a layer that stands alone.
    Base {
        body: Body,
    },
    /// Makes a child of a layer.
    Commit {
        at: Ref,
        body: Body,
    },
    /// Lists the triples of a layer that fit, in birth order.
    Listing {
        at: Ref,
        pattern: Pattern,
    },
    /// Tells whether a layer has a triple.
    Has {
        at: Ref,
        triple: Triple,
    },
    /// Tells how many triples of a layer fit.
    Count {
        at: Ref,
        pattern: Pattern,
    },
    /// Lists the triples that a layer adds to its parent, in birth order at it.
    Added {
        layer: LayerRef,
    },
    /// Lists the triples of its parent that a layer removes, in birth order at it.
    Removed {
        layer: LayerRef,
    },
    /// Lists the layers with their parents, rising.
    Layers,
    /// Lists the labels, rising by the bytes of their names.
    Labels,
    /// Makes a label, which names no layer yet.
    LabelNew {
        name: LabelName,
    },
    /// Tells the version and the layer of a label.
    LabelGet {
        name: LabelName,
    },
    /// Moves a label from the version that it has to a layer, or to none.
    LabelSet {
        name: LabelName,
        version: u64,
        to: Option<LayerRef>,
    },
    /// Makes a layer that stands alone, with the triples of a layer.
    Squash {
        at: Ref,
    },
    /// Opens a cursor at the triples of a layer that fit.
    OpenCursor {
        name: CursorName,
        at: Ref,
        pattern: Pattern,
    },
    /// Lists the next triples of a cursor, no more than `n`.
    Fetch {
        name: CursorName,
        n: u32,
    },
    /// Closes a cursor.
    CloseCursor {
        name: CursorName,
    },
}
