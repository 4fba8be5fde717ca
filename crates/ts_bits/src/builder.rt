//! A list of bits that grows, and is written as its ranked bit array.

ghost use Rattle.std.specs.Prelude.{◌≡◌, [], ◌∷◌, ◌++◌, Some, None, OnOk, OnErr, IsSomeAnd};
ghost use Rattle.ts_bits.specs.BitArray.{bit_array_of, BitsSay};
ghost use Rattle.ts_bits.specs.Extends.{Extends};

use crate::packed::{add_bit, append_array};
use std::alloc::{AllocError, Global};
use std::marker::Model;

/// A list of bits that grows at its end. A clause sees the list, or `None` after want of memory.
#[derive(Drop)]
pub struct BitBuilder {
    words: Vec<u64>,
    len: u64,
    failed: bool,
}

impl Model for BitBuilder {
    ghost use Rattle.std.specs.Prelude.{◌≡◌, List, Bool, Option, Some, None, if◌then◌else◌, slice_index, vec_len};

    ghost Value = { Option (List Bool) };

    ghost use Rattle.ts_bits.specs.BitArray.{words_in};
    ghost use Rattle.ts_bits.specs.Ranked.{bits_of_words, IsClearBehind};

    ghost view = { λ b. if b.failed then None else Some (bits_of_words b.len (slice_index b.words.items)) };

    ghost invariant = { λ b. record {
      filled : vec_len b.words ≡ words_in b.len;
      clear : IsClearBehind b.len (slice_index b.words.items);
    } };
}

impl BitBuilder {
    /// No bits yet. It takes no memory.
    pub fn new(alloc: Global) -> BitBuilder
        ensures { result ≡ Some [] }
    {
        BitBuilder {
            words: Vec::new(alloc),
            len: 0,
            failed: false,
        }
    }

    /// Puts a bit behind the others. After want of memory each later call answers it too. A list of
    /// 2^64 - 1 bits takes no more: that is answered as want of memory.
    pub fn push(&mut self, bit: bool) -> Result<(), AllocError>
        ensures ok { OnOk result (IsSomeAnd self.old (λ bits. self.new ≡ Some (bits ++ bit ∷ []))) }
        ensures err { OnErr result (self.new ≡ None) }
    {
        if self.failed || self.len == u64::MAX || add_bit(&mut self.words, self.len, bit).is_err() {
            self.failed = true;
            return Err(AllocError);
        }
        self.len += 1;
        Ok(())
    }

    /// Appends the ranked bit array of the bits. After want of memory the buffer keeps what it held, and
    /// may hold more behind it.
    pub fn finish(self, into: &mut Vec<u8>) -> Result<(), AllocError>
        ensures ok { OnOk result (IsSomeAnd self (λ bits.
            into.new.items ≡ into.old.items ++ bit_array_of bits)) }
        ensures said { OnOk result (IsSomeAnd self (λ bits. BitsSay (bit_array_of bits) bits)) }
        ensures err { OnErr result (Extends into.old.items into.new.items) }
    {
        if self.failed {
            return Err(AllocError);
        }
        append_array(&self.words, self.len, into)
    }
}
