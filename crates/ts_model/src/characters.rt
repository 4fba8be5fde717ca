// The characters of a text, and the classes of them that terms are written with.
ghost use Rattle.std.specs.Prelude.{◌≡◌, ◌++◌, ◌∷◌, [], chars, encode_utf8, IfSome, IfNone};
ghost use Rattle.std.specs.Char.{IsScalar};
ghost use Rattle.ts_model.specs.Characters.{is_letter as letter, is_digit as digit, is_iri_character, is_name_start as name_start, is_name_character as name_character};

/// The first character of a text, and the text after it. None exactly where the text is empty.
pub fn split_char(text: &str) -> Option<(char, &str)>
    ensures some { IfSome result (λ parts. chars text.now ≡ parts.0 ∷ chars parts.1.now) }
    ensures bytes { IfSome result (λ parts. text.now ≡ encode_utf8 parts.0 ++ parts.1.now) }
    ensures scalar { IfSome result (λ parts. IsScalar parts.0) }
    ensures none { IfNone result (text.now ≡ []) }
{
    let mut characters = text.chars();
    let c = characters.next()?;
    Some((c, characters.as_str()))
}

/// Whether this is a letter of ASCII.
pub fn is_letter(c: char) -> bool
    ensures { result ≡ letter c }
{
    matches!(c, 'A'..='Z' | 'a'..='z')
}

/// Whether this is a digit from 0 to 9.
pub fn is_digit(c: char) -> bool
    ensures { result ≡ digit c }
{
    matches!(c, '0'..='9')
}

/// Whether this stands in an IRI as it is.
pub fn is_direct_in_iri(c: char) -> bool
    ensures { result ≡ is_iri_character c }
{
    !matches!(c, '\0'..=' ' | '"' | '<' | '>' | '\\' | '^' | '`' | '{'..='}')
}

/// Whether a blank label may begin with this, a digit aside: PN_CHARS_U.
pub fn is_name_start(c: char) -> bool
    ensures { result ≡ name_start c }
{
    matches!(c,
        'A'..='Z' | 'a'..='z' | '_' | ':'
        | '\u{C0}'..='\u{D6}' | '\u{D8}'..='\u{F6}' | '\u{F8}'..='\u{2FF}' | '\u{370}'..='\u{37D}' | '\u{37F}'..='\u{1FFF}'
        | '\u{200C}'..='\u{200D}' | '\u{2070}'..='\u{218F}' | '\u{2C00}'..='\u{2FEF}' | '\u{3001}'..='\u{D7FF}'
        | '\u{F900}'..='\u{FDCF}' | '\u{FDF0}'..='\u{FFFD}' | '\u{10000}'..='\u{EFFFF}')
}

/// Whether a blank label may go on and end with this: PN_CHARS.
pub fn is_name_character(c: char) -> bool
    ensures { result ≡ name_character c }
{
    is_name_start(c)
        || matches!(c, '-' | '0'..='9' | '\u{B7}' | '\u{300}'..='\u{36F}' | '\u{203F}'..='\u{2040}')
}
