// The words of a line of a script.
ghost use Rattle.std.specs.Prelude.{◌≡◌, ◌≤◌, ◌<◌, ◌∷◌, [], ℕ, List, take, drop, length, slice_index, false, MatchOption};
ghost use Rattle.ts_script.specs.LineWords.{between, onto, quoted, within, words_from, words_in};
ghost use Rattle.ts_script.specs.LineWords as line_words;

/// The first word of a text, and what follows it.
pub(crate) fn cut_word(text: &[u8]) -> Option<(&[u8], &[u8])>
    ensures words { MatchOption result (words_in text.now ≡ []) (λ cut. words_in text.now ≡ cut.0.now ∷ words_in cut.1.now) }
    ensures shorter { MatchOption result (Unit {0}) (λ cut. length cut.1.now < length text.now) }
{
    let word = &text[blank_length(text)..];
    if word.is_empty() {
        return None;
    }
    Some(word.split_at(word_length(word)))
}

/// How many blanks stand at the front of a text.
fn blank_length(text: &[u8]) -> usize
    ensures inside { result ≤ length text.now }
    ensures words { words_in text.now ≡ words_in (drop result text.now) }
    ensures begins { result < length text.now → line_words.is_blank (slice_index text.now result) ≡ false }
{
    let mut at = 0;
    while at < text.len() && is_blank(text[at]) {
        at += 1;
    }
    at
}

/// The length of the word at the front of a text.
fn word_length(text: &[u8]) -> usize
    requires some { 0 < length text.now }
    requires begins { line_words.is_blank (slice_index text.now 0) ≡ false }
    ensures inside { result ≤ length text.now }
    ensures some { 0 < result }
    ensures words { words_in text.now ≡ take result text.now ∷ words_in (drop result text.now) }
{
    if text[0] != b'"' {
        return rest_length(text);
    }
    let closed = 1 + quoted_length(&text[1..]);
    closed + rest_length(&text[closed..])
}

/// How many bytes stand before the first blank.
fn rest_length(text: &[u8]) -> usize
    ensures inside { result ≤ length text.now }
    ensures words { words_from within text.now ≡ take result text.now ∷ words_in (drop result text.now) }
{
    let mut at = 0;
    while at < text.len() && !is_blank(text[at]) {
        at += 1;
    }
    at
}

/// How many bytes there are up to the closing quote, which is one of them; all of them where there is none.
fn quoted_length(text: &[u8]) -> usize
    ensures inside { result ≤ length text.now }
    ensures words { words_from (quoted false) text.now ≡ onto (take result text.now) (words_from within (drop result text.now)) }
{
    let mut at = 0;
    let mut odd = false;
    while at < text.len() {
        let byte = text[at];
        at += 1;
        if byte == b'"' && !odd {
            return at;
        }
        odd = byte == b'\\' && !odd;
    }
    at
}

fn is_blank(byte: u8) -> bool
    ensures { result ≡ line_words.is_blank byte }
{
    byte == b' ' || byte == b'\t'
}
