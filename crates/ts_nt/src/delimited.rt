// Characters between two delimiters: IRIs and the strings of literals.
ghost use Rattle.std.specs.Prelude.{◌≡◌, ◌≢◌, ◌++◌, ◌<◌, ◌∷◌, ℕ, List, flat_map, chars, string_bytes, IfOk, IfSome, IfNone, OnOk};
ghost use Rattle.std.specs.Option.{option_map};
ghost use Rattle.ts_model.specs.Iri.{iri_character, upper_digit as upper_digit_of};
ghost use Rattle.ts_model.specs.Literal.{string_character};
ghost use Rattle.ts_nt.specs.Items.{iri_item as iri_item_of, string_item as string_item_of};
ghost use Rattle.ts_nt.specs.Reading.{Finds, Reads};
ghost use Rattle.ts_nt.specs.Terms.{IriAt, StringAt};

use crate::front::after_char;
use crate::items::{iri_item, string_item};
use std::alloc::AllocError;
use ts_model::is_direct_in_iri;

/// Appends the canonical spelling of the IRI at the front of a text, and gives the text after it.
pub fn read_iri<'a>(text: &'a str, into: &mut String) -> Result<Option<&'a str>, AllocError>
    ensures { IfOk result (λ found. Finds IriAt (chars text.now) (string_bytes into.old) (string_bytes into.new) (option_map (λ rest. chars rest.now) found)) }
{
    let Some(inside) = after_char(text, '<') else {
        return Ok(None);
    };
    into.push('<')?;
    let rest = read_iri_characters(inside, into)?;
    let Some(after) = after_char(rest, '>') else {
        return Ok(None);
    };
    into.push('>')?;
    Ok(Some(after))
}

/// Appends the canonical spelling of the string at the front of a text, and gives the text after it.
pub fn read_string<'a>(text: &'a str, into: &mut String) -> Result<Option<&'a str>, AllocError>
    ensures { IfOk result (λ found. Finds StringAt (chars text.now) (string_bytes into.old) (string_bytes into.new) (option_map (λ rest. chars rest.now) found)) }
{
    let Some(inside) = after_char(text, '"') else {
        return Ok(None);
    };
    into.push('"')?;
    let rest = read_string_characters(inside, into)?;
    let Some(after) = after_char(rest, '"') else {
        return Ok(None);
    };
    into.push('"')?;
    Ok(Some(after))
}

/// Appends the spelling of as many characters of an IRI as there are, and gives the text after them.
fn read_iri_characters<'a>(text: &'a str, into: &mut String) -> Result<&'a str, AllocError>
    ensures { IfOk result (λ rest. (characters : List ℕ)
        × Reads iri_item_of (chars text.now) characters (chars rest.now)
        × (iri_item_of (chars rest.now) ≡ None)
        × (string_bytes into.new ≡ string_bytes into.old ++ flat_map iri_character characters)) }
{
    let mut rest = text;
    while let Some((c, after)) = iri_item(rest) {
        push_iri_character(into, c)?;
        rest = after;
    }
    Ok(rest)
}

/// Appends the spelling of as many characters of a string as there are, and gives the text after them.
fn read_string_characters<'a>(text: &'a str, into: &mut String) -> Result<&'a str, AllocError>
    ensures { IfOk result (λ rest. (characters : List ℕ)
        × Reads string_item_of (chars text.now) characters (chars rest.now)
        × (string_item_of (chars rest.now) ≡ None)
        × (string_bytes into.new ≡ string_bytes into.old ++ flat_map string_character characters)) }
{
    let mut rest = text;
    while let Some((c, after)) = string_item(rest) {
        push_string_character(into, c)?;
        rest = after;
    }
    Ok(rest)
}

/// Appends a character as an IRI spells it.
fn push_iri_character(into: &mut String, c: char) -> Result<(), AllocError>
    ensures { OnOk result (string_bytes into.new ≡ string_bytes into.old ++ iri_character c) }
{
    if is_direct_in_iri(c) {
        return into.push(c);
    }
    // Only characters of ASCII are escaped.
    let code = c as u8;
    into.push_str("\\u00")?;
    into.push(upper_digit(code / 16))?;
    into.push(upper_digit(code % 16))
}

/// A hexadecimal digit, in upper case.
fn upper_digit(digit: u8) -> char
    requires { digit < 16 }
    ensures { result ≡ upper_digit_of digit }
{
    if digit < 10 {
        (b'0' + digit) as char
    } else {
        (b'A' - 10 + digit) as char
    }
}

/// Appends a character as a string spells it.
fn push_string_character(into: &mut String, c: char) -> Result<(), AllocError>
    ensures { OnOk result (string_bytes into.new ≡ string_bytes into.old ++ string_character c) }
{
    match c {
        '"' => into.push_str("\\\""),
        '\\' => into.push_str("\\\\"),
        '\n' => into.push_str("\\n"),
        '\r' => into.push_str("\\r"),
        _ => into.push(c),
    }
}
