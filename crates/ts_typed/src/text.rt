//! The number that a value spells.

ghost use Rattle.std.specs.Prelude.{◌≡◌, ◌≢◌, ◌∷◌, ◌++◌, List, ℕ, ℤ, IsTrue, IfNone, IfSome};
ghost use Rattle.std.specs.Fmt.{signed_decimal};
ghost use Rattle.ts_model.specs.Integers.{integer_ending, integer_of, is_within_128};

use itoa::Buffer;

/// What stands behind the digits.
const ENDING: &[u8] = b"\"^^<http://www.w3.org/2001/XMLSchema#integer>";

/// The number of a canonical integer; `None` exactly where the bytes aren't the canonical spelling of one.
pub fn number_of(spelling: &[u8]) -> Option<i128>
    ensures { result ≡ integer_of spelling.now }
{
    let digits = digits_in(spelling)?;
    canonical(digits)
}

/// What stands between a first quote and the ending of an integer.
fn digits_in(spelling: &[u8]) -> Option<&[u8]>
    ensures some { IfSome result (λ digits. spelling.now ≡ 0x22 ∷ (digits.now ++ integer_ending)) }
    ensures none { IfNone result ((digits : List ℕ) → spelling.now ≢ 0x22 ∷ (digits ++ integer_ending)) }
{
    match spelling {
        [b'"', rest @ ..] => before_ending(rest),
        _ => None,
    }
}

/// What stands before the ending of an integer.
fn before_ending(rest: &[u8]) -> Option<&[u8]>
    ensures some { IfSome result (λ digits. rest.now ≡ digits.now ++ integer_ending) }
    ensures none { IfNone result ((digits : List ℕ) → rest.now ≢ digits ++ integer_ending) }
{
    if rest.len() < ENDING.len() {
        return None;
    }
    let (digits, ending) = rest.split_at(rest.len() - ENDING.len());
    if ending == ENDING { Some(digits) } else { None }
}

/// The number of which this is the decimal text.
fn canonical(digits: &[u8]) -> Option<i128>
    ensures some { IfSome result (λ number. digits.now ≡ signed_decimal number) }
    ensures within { IfSome result (λ number. IsTrue (is_within_128 number)) }
    ensures none { IfNone result ((number : ℤ) → IsTrue (is_within_128 number) → digits.now ≢ signed_decimal number) }
{
    let number = read(digits)?;
    if Buffer::new().format(number).as_bytes() == digits {
        Some(number)
    } else {
        None
    }
}

/// The number that digits say, perhaps behind a sign.
fn read(digits: &[u8]) -> Option<i128>
    ensures within { IfSome result (λ number. IsTrue (is_within_128 number)) }
    ensures read { (number : ℤ) → IsTrue (is_within_128 number) → digits.now ≡ signed_decimal number → result ≡ Some number }
{
    match std::str::from_utf8(digits) {
        Ok(text) => text.parse().ok(),
        Err(_) => None,
    }
}
