//! A part that is loaded.

ghost use Rattle.std.specs.Prelude.{◌≡◌, ◌↔◌, ◌++◌, IfErr, IfNone, IfOk, IfSome, IsTrue, OnOk};
ghost use Rattle.ts_log.specs.Buffer.{Extends};
ghost use Rattle.ts_model.specs.TextTerm.{TextTerm};
ghost use Rattle.ts_model.specs.declared.term.TermKind.TheVariants.{Node, Predicate, Value};
ghost use Rattle.ts_part.specs.Facts.{Facts, HasPredicate, HasTerm};
ghost use Rattle.ts_part.specs.Faults.{IsLoadError};
ghost use Rattle.ts_part.specs.Header.{HasHeader, HeaderSays};
ghost use Rattle.ts_part.specs.Kept.{Keeps};
ghost use Rattle.ts_part.specs.Loaded.{IsLoaded, part_header};
ghost use Rattle.ts_part.specs.Part.{LocalForm, PartSaysOnly};
ghost use Rattle.ts_part.specs.Tells.{Tells};
ghost use Rattle.ts_part.specs.Views.{AppendsPredicate, AppendsTerm, IsNodeNumber, IsPredicateNumber, IsTermNumber, LacksPredicate, LacksTerm};

use crate::check::check_sections;
use crate::damage::{Damage, LoadError};
use crate::header::{HEADER, Header, header_of};
use crate::sections::Sections;
use crate::table::read_table;
use std::alloc::{AllocError, Global};
use std::marker::Model;
use ts_plane::PlaneView;

/// The header that a file is to have.
#[derive(Clone, Copy, PartialEq, Eq, Debug)]
pub struct Expect {
    pub header: Header,
}

/// A layer file or a rollup file, loaded: its bytes are known to say facts that keep all rules. A clause
/// sees the file and these facts.
#[derive(Drop)]
pub struct Part {
    file: Vec<u8>,
    places: [(u64, u64); 24],
    header: Header,
}

impl Model for Part {
    ghost use Rattle.ts_part.specs.Loaded.{LoadedPart};

    ghost Value = { LoadedPart };

    ghost use Rattle.ts_part.specs.Kept.{Keeps, loaded};

    ghost view = { λ p. loaded p.file.items };

    ghost invariant = { λ p. Keeps p.file.items p.places p.header };
}

impl Part {
    /// The part of a file that is to have this header, or why there is none: the file's first fault, in
    /// the order header, table, sections by their kinds, facts. It takes memory for one term.
    pub fn load(alloc: Global, file: Vec<u8>, expect: &Expect) -> Result<Part, LoadError>
        ensures file { IfOk result (λ part. part.file ≡ file.items) }
        ensures header { IfOk result (λ part. part_header part ≡ expect.now.header) }
        ensures loaded { IfOk result IsLoaded }
        ensures only { IfOk result (λ part. PartSaysOnly part.file part.facts) }
        ensures fault { IfErr result (IsLoadError file.items expect.now.header) }
        ensures whole { LocalForm file.items expect.now.header
            → IfErr result (λ error. error ≡ LoadError.Memory) }
    {
        let header = expect.header;
        match check_file(alloc, &file, &header) {
            Ok(places) => Ok(Part {
                file,
                places,
                header,
            }),
            Err(error) => Err(error),
        }
    }

    /// Its sections, which tell its facts.
    fn sections(&self) -> Sections<'_>
        ensures { Tells result self.now.facts }
    {
        Sections {
            file: self.file.as_slice(),
            places: &self.places,
            header: &self.header,
        }
    }

    /// The header of the part's file.
    pub fn header(&self) -> &Header
        ensures header { result.now ≡ part_header self.now }
        ensures loaded { IsLoaded self.now }
    {
        &self.header
    }

    /// The triples that come with the part, by the numbers of their terms.
    pub fn additions(&self) -> PlaneView<'_>
        ensures { result ≡ self.now.facts.additions }
    {
        self.sections().additions()
    }

    /// The triples that go with the part.
    pub fn removals(&self) -> PlaneView<'_>
        ensures { result ≡ self.now.facts.removals }
    {
        self.sections().removals()
    }

    /// The number of a new node by its spelling, and `None` exactly where the part lacks it.
    pub fn node_of(&self, spelling: &[u8]) -> Option<u64>
        ensures found { IfSome result (λ number.
            HasTerm self.now.facts number (record { kind = Node; spelling = spelling.now })) }
        ensures within { IfSome result (IsTermNumber self.now.facts) }
        ensures absent { IfNone result (LacksTerm self.now.facts Node spelling.now) }
    {
        self.sections().node_of(spelling)
    }

    /// The number of a new value by its spelling, and `None` exactly where the part lacks it.
    pub fn value_of(&self, spelling: &[u8]) -> Option<u64>
        ensures found { IfSome result (λ number.
            HasTerm self.now.facts number (record { kind = Value; spelling = spelling.now })) }
        ensures within { IfSome result (IsTermNumber self.now.facts) }
        ensures absent { IfNone result (LacksTerm self.now.facts Value spelling.now) }
    {
        self.sections().value_of(spelling)
    }

    /// The number of a new predicate by its spelling, and `None` exactly where the part lacks it.
    pub fn predicate_of(&self, spelling: &[u8]) -> Option<u64>
        ensures found { IfSome result (λ number.
            HasPredicate self.now.facts number (record { kind = Predicate; spelling = spelling.now })) }
        ensures within { IfSome result (IsPredicateNumber self.now.facts) }
        ensures absent { IfNone result (LacksPredicate self.now.facts Predicate spelling.now) }
    {
        self.sections().predicate_of(spelling)
    }

    /// Whether the number of a new node or value is a node's.
    pub fn is_node(&self, number: u64) -> bool
        requires { IsTermNumber self.now.facts number }
        ensures { IsTrue result ↔ IsNodeNumber self.now.facts number }
    {
        self.sections().is_node(number)
    }

    /// Appends the spelling of a new node or value. After want of memory the buffer keeps what it held,
    /// and may hold more after it.
    pub fn term_text(&self, number: u64, into: &mut Vec<u8>) -> Result<(), AllocError>
        requires { IsTermNumber self.now.facts number }
        ensures written { OnOk result (AppendsTerm self.now.facts number into.old.items into.new.items) }
        ensures kept { Extends into.old.items into.new.items }
    {
        self.sections().term_text(number, into)
    }

    /// Appends the spelling of a new predicate. After want of memory the buffer keeps what it held, and
    /// may hold more after it.
    pub fn predicate_text(&self, number: u64, into: &mut Vec<u8>) -> Result<(), AllocError>
        requires { IsPredicateNumber self.now.facts number }
        ensures written { OnOk result (AppendsPredicate self.now.facts number into.old.items into.new.items) }
        ensures kept { Extends into.old.items into.new.items }
    {
        self.sections().predicate_text(number, into)
    }
}

/// Where the sections of a file lie that is a part with this header, or why it is none.
fn check_file(alloc: Global, file: &[u8], header: &Header) -> Result<[(u64, u64); 24], LoadError>
    ensures keeps { IfOk result (λ places. Keeps file.now places header.now) }
    ensures fault { IfErr result (IsLoadError file.now header.now) }
{
    if !has_header(file, header) {
        return Err(LoadError::Damage(Damage::Header));
    }
    let Some(places) = read_table(file, header.kind.sections()) else {
        return Err(LoadError::Damage(Damage::Table));
    };
    let sections = Sections {
        file,
        places: &places,
        header,
    };
    match check_sections(alloc, &sections) {
        Ok(_) => {}
        Err(error) => return Err(error),
    }
    if !sections.keep_together() {
        return Err(LoadError::Damage(Damage::Facts));
    }
    Ok(places)
}

/// Whether the file begins with this header, which has the file's length.
fn has_header(file: &[u8], header: &Header) -> bool
    ensures { IsTrue result ↔ HasHeader file.now header.now }
{
    if file.len() < HEADER || header.length != file.len() as u64 {
        return false;
    }
    let mut bytes = [0; HEADER];
    bytes.copy_from_slice(&file[..HEADER]);
    is_header(&bytes, header)
}

/// Whether the bytes are this header's.
fn is_header(bytes: &[u8; 88], header: &Header) -> bool
    ensures { IsTrue result ↔ HeaderSays bytes.now header.now }
{
    match header_of(bytes) {
        Some(found) => found == *header,
        None => false,
    }
}
