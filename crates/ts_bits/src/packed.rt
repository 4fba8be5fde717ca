//! Bits packed into words, from the top, and the sections that are written for them.

ghost use Rattle.std.specs.Prelude.{◌≡◌, ◌+◌, ◌<◌, ◌∷◌, [], ◌++◌, length, slice_index, vec_len, OnOk, OnErr, replicate};
ghost use Rattle.byteorder.specs.Endian.{big_bytes};
ghost use Rattle.ts_bits.specs.BitArray.{words_in, superblocks_in, superblock_count, word_count, numbers_of, bit_array_of, BitsSay};
ghost use Rattle.ts_bits.specs.Ranked.{bits_of_words, IsClearBehind};
ghost use Rattle.ts_bits.specs.Extends.{Extends};

use std::alloc::AllocError;

/// Packs one more bit behind the `len` bits of the words.
pub(crate) fn add_bit(words: &mut Vec<u64>, len: u64, bit: bool) -> Result<(), AllocError>
    requires filled { vec_len words.old ≡ words_in len }
    requires clear { IsClearBehind len (slice_index words.old.items) }
    ensures filled { OnOk result (vec_len words.new ≡ words_in (len + 1)) }
    ensures clear { OnOk result (IsClearBehind (len + 1) (slice_index words.new.items)) }
    ensures bits { OnOk result (bits_of_words (len + 1) (slice_index words.new.items)
        ≡ bits_of_words len (slice_index words.old.items) ++ bit ∷ []) }
    ensures err { OnErr result (words.new.items ≡ words.old.items) }
{
    let digit = u64::from(bit) << (63 - len % 64);
    let last = (len / 64) as usize;
    if last < words.len() {
        words[last] |= digit;
    } else {
        words.push(digit)?;
    }
    Ok(())
}

/// Appends a number of 8 bytes.
pub(crate) fn append_u64(into: &mut Vec<u8>, x: u64) -> Result<(), AllocError>
    ensures ok { OnOk result (into.new.items ≡ into.old.items ++ big_bytes 8 x) }
    ensures err { OnErr result (into.new.items ≡ into.old.items) }
{
    into.extend_from_slice(&x.to_be_bytes())
}

/// Appends a number of 2 bytes.
pub(crate) fn append_u16(into: &mut Vec<u8>, x: u16) -> Result<(), AllocError>
    ensures ok { OnOk result (into.new.items ≡ into.old.items ++ big_bytes 2 x) }
    ensures err { OnErr result (into.new.items ≡ into.old.items) }
{
    into.extend_from_slice(&x.to_be_bytes())
}

/// Appends the words.
pub(crate) fn append_words(words: &[u64], into: &mut Vec<u8>) -> Result<(), AllocError>
    ensures ok { OnOk result (into.new.items
        ≡ into.old.items ++ numbers_of 8 (length words.now) (slice_index words.now)) }
    ensures err { OnErr result (Extends into.old.items into.new.items) }
{
    for word in words {
        append_u64(into, *word)?;
    }
    Ok(())
}

/// Appends the count of each superblock.
pub(crate) fn append_superblocks(
    words: &[u64],
    len: u64,
    into: &mut Vec<u8>,
) -> Result<(), AllocError>
    requires filled { length words.now ≡ words_in len }
    requires clear { IsClearBehind len (slice_index words.now) }
    ensures ok { OnOk result (into.new.items ≡ into.old.items
        ++ numbers_of 8 (superblocks_in len) (superblock_count (bits_of_words len (slice_index words.now)))) }
    ensures err { OnErr result (Extends into.old.items into.new.items) }
{
    let mut total = 0u64;
    for (k, word) in words.iter().enumerate() {
        if k % 8 == 0 {
            append_u64(into, total)?;
        }
        total += u64::from(word.count_ones());
    }
    Ok(())
}

/// Appends the count of each word.
pub(crate) fn append_counts(words: &[u64], len: u64, into: &mut Vec<u8>) -> Result<(), AllocError>
    requires filled { length words.now ≡ words_in len }
    requires clear { IsClearBehind len (slice_index words.now) }
    ensures ok { OnOk result (into.new.items ≡ into.old.items
        ++ numbers_of 2 (words_in len) (word_count (bits_of_words len (slice_index words.now)))) }
    ensures err { OnErr result (Extends into.old.items into.new.items) }
{
    let mut inside = 0u16;
    for (k, word) in words.iter().enumerate() {
        if k % 8 == 0 {
            inside = 0;
        }
        append_u16(into, inside)?;
        inside += word.count_ones() as u16;
    }
    Ok(())
}

/// Appends fewer than 8 zeros.
pub(crate) fn append_zeros(count: usize, into: &mut Vec<u8>) -> Result<(), AllocError>
    requires { count < 8 }
    ensures ok { OnOk result (into.new.items ≡ into.old.items ++ replicate count 0) }
    ensures err { OnErr result (into.new.items ≡ into.old.items) }
{
    into.extend_from_slice(&[0u8; 8][..count])
}

/// Appends the ranked bit array of the first `len` bits of the words.
pub(crate) fn append_array(words: &[u64], len: u64, into: &mut Vec<u8>) -> Result<(), AllocError>
    requires filled { length words.now ≡ words_in len }
    requires clear { IsClearBehind len (slice_index words.now) }
    ensures ok { OnOk result (into.new.items
        ≡ into.old.items ++ bit_array_of (bits_of_words len (slice_index words.now))) }
    ensures said { OnOk result (BitsSay (bit_array_of (bits_of_words len (slice_index words.now)))
        (bits_of_words len (slice_index words.now))) }
    ensures err { OnErr result (Extends into.old.items into.new.items) }
{
    append_u64(into, len)?;
    append_words(words, into)?;
    append_superblocks(words, len, into)?;
    append_counts(words, len, into)?;
    append_zeros((8 - 2 * words.len() % 8) % 8, into)
}
