// Literals, and terms of each kind, at the front of a text.
ghost use Rattle.std.specs.Prelude.{◌≡◌, chars, string_bytes, length, IfOk, IfSome, IfNone, List, ◌∷◌, ◌++◌, ℕ};
ghost use Rattle.std.specs.Option.{option_map};
ghost use Rattle.std.specs.String.Boundary.{IsSplitPoint};
ghost use Rattle.ts_nt.specs.Reading.{Finds};
ghost use Rattle.ts_nt.specs.Terms.{EndingAt, LiteralAt, TermAt, TypeAt, type_ending};

use crate::delimited::{read_iri, read_string};
use crate::front::after_char;
use crate::verbatim::{read_label, read_tag};
use std::alloc::{AllocError, Global};
use ts_model::TermKind;

/// The ending of a literal whose type is a string's, which is not written.
const STRING_TYPE: &[u8] = b"^^<http://www.w3.org/2001/XMLSchema#string>";

/// The canonical spelling of the term at the front of a text, and the text after it.
pub fn read_term_at(
    alloc: Global,
    text: &str,
    kind: TermKind,
) -> Result<Option<(Vec<u8>, &str)>, AllocError>
    ensures some { IfOk result (λ found. IfSome found (λ term. TermAt kind (chars text.now) term.0.items (chars term.1.now))) }
    ensures none { IfOk result (λ found. IfNone found ((spelling rest : List ℕ) → TermAt kind (chars text.now) spelling rest → ⊥)) }
{
    let mut spelling = String::new(alloc);
    match append_term(text, kind, &mut spelling)? {
        Some(rest) => Ok(Some((spelling.into_bytes(), rest))),
        None => Ok(None),
    }
}

/// Appends the canonical spelling of the term at the front of a text, and gives the text after it.
fn append_term<'a>(
    text: &'a str,
    kind: TermKind,
    into: &mut String,
) -> Result<Option<&'a str>, AllocError>
    ensures { IfOk result (λ found. Finds (TermAt kind) (chars text.now) (string_bytes into.old) (string_bytes into.new) (option_map (λ rest. chars rest.now) found)) }
{
    match kind {
        TermKind::Node => read_node(text, into),
        TermKind::Predicate => read_iri(text, into),
        TermKind::Value => read_literal(text, into),
    }
}

/// Appends the canonical spelling of the IRI or the blank label at the front of a text, and gives the text after it.
fn read_node<'a>(text: &'a str, into: &mut String) -> Result<Option<&'a str>, AllocError>
    ensures { IfOk result (λ found. Finds (TermAt TermKind.Node) (chars text.now) (string_bytes into.old) (string_bytes into.new) (option_map (λ rest. chars rest.now) found)) }
{
    match after_char(text, '_') {
        Some(_) => read_label(text, into),
        None => read_iri(text, into),
    }
}

/// Appends the canonical spelling of the literal at the front of a text, and gives the text after it.
fn read_literal<'a>(text: &'a str, into: &mut String) -> Result<Option<&'a str>, AllocError>
    ensures { IfOk result (λ found. Finds LiteralAt (chars text.now) (string_bytes into.old) (string_bytes into.new) (option_map (λ rest. chars rest.now) found)) }
{
    match read_string(text, into)? {
        Some(behind) => read_ending(behind, into),
        None => Ok(None),
    }
}

/// Appends what follows the string of a literal, and gives the text after it.
fn read_ending<'a>(text: &'a str, into: &mut String) -> Result<Option<&'a str>, AllocError>
    ensures { IfOk result (λ found. Finds EndingAt (chars text.now) (string_bytes into.old) (string_bytes into.new) (option_map (λ rest. chars rest.now) found)) }
{
    if let Some(behind) = after_char(text, '^') {
        return read_type(behind, into);
    }
    match after_char(text, '@') {
        Some(_) => read_tag(text, into),
        None => Ok(Some(text)),
    }
}

/// Appends the type of a literal at the front of a text whose first `^` is taken, and gives the text after it.
fn read_type<'a>(text: &'a str, into: &mut String) -> Result<Option<&'a str>, AllocError>
    ensures { IfOk result (λ found. Finds TypeAt (0x5E ∷ chars text.now) (string_bytes into.old) (string_bytes into.new) (option_map (λ rest. chars rest.now) found)) }
{
    match after_char(text, '^') {
        Some(behind) => append_type(behind, into),
        None => Ok(None),
    }
}

/// Appends `^^` and the IRI at the front of a text, or nothing where it is the type of strings, and gives the text after it.
fn append_type<'a>(text: &'a str, into: &mut String) -> Result<Option<&'a str>, AllocError>
    ensures { IfOk result (λ found. Finds TypeAt (0x5E ∷ 0x5E ∷ chars text.now) (string_bytes into.old) (string_bytes into.new) (option_map (λ rest. chars rest.now) found)) }
{
    let start = into.len();
    into.push_str("^^")?;
    match read_iri(text, into)? {
        Some(rest) => {
            drop_string_type(into, start);
            Ok(Some(rest))
        }
        None => Ok(None),
    }
}

/// Drops the type that begins at `start` where it is the type of strings.
fn drop_string_type(into: &mut String, start: usize)
    requires { IsSplitPoint (string_bytes into.old) start }
    ensures { (front iri : List ℕ) → string_bytes into.old ≡ front ++ 0x5E ∷ 0x5E ∷ iri → length front ≡ start → string_bytes into.new ≡ front ++ type_ending iri }
{
    if &into.as_bytes()[start..] == STRING_TYPE {
        into.truncate(start);
    }
}
