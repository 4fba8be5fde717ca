//! Elements of one width in words of 64 bits, from the top bit of the first word.

ghost use Rattle.std.specs.Prelude.{◌≡◌, ◌≢◌, ℕ, ◌+◌, ◌-◌, ◌*◌, ◌/◌, ◌%◌, ◌^◌, ◌<◌, ◌≤◌, ◌⊎◌, ◌↔◌, length, take, drop, IsTrue, List, IfSome, IfNone};
ghost use Rattle.std.specs.Bool.{OnTrue, OnFalse};
ghost use Rattle.ts_log.specs.Groups.{joined, element_in};
ghost use Rattle.ts_log.specs.LogArray.{words_for, packed, width_of, AreWords};

/// How many bytes a word takes.
pub const WORD: usize = 8;

/// How many words hold `count` elements of `width` bits.
pub fn words_for(width: u64, count: u64) -> u64
    requires { width ≤ 64 }
    ensures { result ≡ words_for width count }
{
    count / 64 * width + (count % 64 * width + 63) / 64
}

/// How many bits of the words stand after the last element.
fn padding_for(width: u64, count: u64) -> u64
    requires { width ≤ 64 }
    ensures { result ≡ 64 * words_for width count - width * count }
{
    (64 - count % 64 * width % 64) % 64
}

/// The words at the start of `rest`, where they are those of `count` numbers with this width.
pub fn words_at_front(rest: &[u8], width: u64, count: u64) -> Option<&[u8]>
    requires positive { 1 ≤ width }
    requires narrow { width ≤ 64 }
    ensures some { IfSome result (λ words.
        (words.now ≡ take (8 * words_for width count) rest.now) × AreWords width count words.now) }
    ensures none { IfNone result ((numbers : List ℕ) → width_of numbers ≡ width
        → length numbers ≡ count → take (8 * words_for width count) rest.now ≢ packed width numbers) }
{
    let needed = words_for(width, count);
    if ((rest.len() / WORD) as u64) < needed {
        return None;
    }
    let words = &rest[..needed as usize * WORD];
    if !ends_in_zeros(words, padding_for(width, count)) {
        return None;
    }
    if !needs_width(words, width, count) {
        return None;
    }
    Some(words)
}

/// The word that begins at the byte `at`.
pub fn word_at(bytes: &[u8], at: usize) -> u64
    requires { at + 8 ≤ length bytes.now }
    ensures { result ≡ joined 8 (take 8 (drop at bytes.now)) }
{
    let word = &bytes[at..at + WORD];
    u64::from_be_bytes([
        word[0], word[1], word[2], word[3], word[4], word[5], word[6], word[7],
    ])
}

/// The lowest `count` bits.
fn low_bits(word: u64, count: u64) -> u64
    requires some { 1 ≤ count }
    requires within { count ≤ 64 }
    ensures { result ≡ word % 2 ^ count }
{
    word & (u64::MAX >> (64 - count))
}

/// Element `i` of the elements of `width` bits in the words: at most two words and shifts.
pub fn element(words: &[u8], width: u64, i: u64) -> u64
    requires positive { 1 ≤ width }
    requires narrow { width ≤ 64 }
    requires whole { length words.now % 8 ≡ 0 }
    requires inside { width * i + width ≤ 8 * length words.now }
    ensures { result ≡ element_in width i words.now }
{
    let place = i % 64 * width;
    let at = (i / 64 * width + place / 64) as usize * WORD;
    let offset = place % 64;
    let end = offset + width;
    let high = word_at(words, at);
    if end <= 64 {
        low_bits(high >> (64 - end), width)
    } else {
        across(high, word_at(words, at + WORD), offset, end - 64)
    }
}

/// The bits of `high` from `offset` after its top one on, followed by the top `rest` bits of `low`.
fn across(high: u64, low: u64, offset: u64, rest: u64) -> u64
    requires inside { offset < 64 }
    requires some { 0 < rest }
    requires fits { rest ≤ offset }
    ensures { result ≡ high % 2 ^ (64 - offset) * 2 ^ rest + low / 2 ^ (64 - rest) }
{
    (low_bits(high, 64 - offset) << rest) + (low >> (64 - rest))
}

/// Whether the last `count` bits of the words are zero.
pub fn ends_in_zeros(words: &[u8], count: u64) -> bool
    requires within { count < 64 }
    requires whole { length words.now % 8 ≡ 0 }
    ensures { IsTrue result ↔ (joined 8 words.now % 2 ^ count ≡ 0) }
{
    if words.is_empty() {
        return true;
    }
    let last = word_at(words, words.len() - WORD);
    last % (1 << count) == 0
}

/// Whether some element uses all its bits, so that no lesser width holds the elements; a width of 1
/// is the least in any case.
pub fn needs_width(words: &[u8], width: u64, count: u64) -> bool
    requires positive { 1 ≤ width }
    requires narrow { width ≤ 64 }
    requires whole { length words.now % 8 ≡ 0 }
    requires inside { width * count ≤ 8 * length words.now }
    ensures needed { OnTrue result ((width ≡ 1)
        ⊎ ((i : ℕ) × ((i < count) × (2 ^ (width - 1) ≤ element_in width i words.now)))) }
    ensures wide { OnFalse result ((width ≢ 1)
        × ((i : ℕ) → i < count → element_in width i words.now < 2 ^ (width - 1))) }
{
    if width == 1 {
        return true;
    }
    let top = 1 << (width - 1);
    for i in 0..count {
        if element(words, width, i) >= top {
            return true;
        }
    }
    false
}
