//! A rising list of texts that grows at its end, to be written as a dictionary.

ghost use Rattle.std.specs.Prelude.{◌≡◌, ◌++◌, ◌∷◌, ◌==◌, ◌%◌, ℕ, List, [], length, if◌then◌else◌, OnOk, OnErr, IsSomeAnd, IfSome, Some};
ghost use Rattle.std.specs.Bool.{MatchBool};
ghost use Rattle.ts_log.specs.Buffer.{Extends};
ghost use Rattle.ts_front.specs.Dictionary.{IsAfterLast, whole, added, dictionary_starts, dictionary_bytes, DictionarySays};

use crate::compare::shared_length;
use crate::piece::BLOCK;
use std::alloc::{AllocError, Global};
use std::marker::Model;
use ts_log::LogBuilder;
use ts_vbyte::put;

/// The texts of a dictionary to come. After want of memory all later calls of a builder answer want
/// of memory.
#[derive(Drop)]
pub struct FrontBuilder {
    starts: LogBuilder,
    body: Vec<u8>,
    last: Vec<u8>,
    count: u64,
    failed: bool,
}

impl Model for FrontBuilder {
    ghost use Rattle.std.specs.Prelude.{ℕ, List, Option, Some, None, if◌then◌else◌};
    ghost use Rattle.ts_front.specs.Building.{IsBuilt};
    ghost use Rattle.ts_front.specs.Reading.{texts_in};

    ghost Value = { Option (List (List ℕ)) };

    ghost view = { λ b. if b.failed then None else Some (texts_in b.count b.body.items) };

    ghost invariant = { λ b. IsBuilt b.failed b.starts b.body.items b.last.items b.count };
}

/// Appends a text whole.
fn append_whole(into: &mut Vec<u8>, text: &[u8]) -> Result<(), AllocError>
    ensures { OnOk result (into.new.items ≡ into.old.items ++ whole text.now) }
{
    put(into, text.len() as u64)?;
    into.extend_from_slice(text)
}

/// Appends a text by what it adds to the one before it.
fn append_added(into: &mut Vec<u8>, before: &[u8], text: &[u8]) -> Result<(), AllocError>
    ensures { OnOk result (into.new.items ≡ into.old.items ++ added before.now text.now) }
{
    let shared = shared_length(before, text);
    put(into, shared as u64)?;
    append_whole(into, &text[shared..])
}

/// Puts a text in the place of another.
fn put_text(into: &mut Vec<u8>, text: &[u8]) -> Result<(), AllocError>
    ensures { OnOk result (into.new.items ≡ text.now) }
{
    into.clear();
    into.extend_from_slice(text)
}

impl FrontBuilder {
    /// A builder without texts. It takes no memory.
    pub fn new(alloc: Global) -> FrontBuilder
        ensures { result ≡ Some [] }
    {
        FrontBuilder {
            starts: LogBuilder::new(alloc),
            body: Vec::new(alloc),
            last: Vec::new(alloc),
            count: 0,
            failed: false,
        }
    }

    /// Adds a text at the end, which is greater than the last one by its bytes.
    pub fn push(&mut self, entry: &[u8]) -> Result<(), AllocError>
        requires { IfSome self.old (λ texts. IsAfterLast texts entry.now) }
        ensures pushed { OnOk result (IsSomeAnd self.old (λ texts.
            self.new ≡ Some (texts ++ entry.now ∷ []))) }
        ensures failed { OnErr result (self.new ≡ None) }
    {
        if self.failed {
            return Err(AllocError);
        }
        let appended = append_entry(
            &mut self.starts,
            &mut self.body,
            &mut self.last,
            self.count,
            entry,
        );
        match appended {
            Ok(()) => {
                self.count += 1;
                Ok(())
            }
            Err(_) => {
                self.failed = true;
                Err(AllocError)
            }
        }
    }

    /// Appends the two sections of the dictionary of the texts pushed. After want of memory each buffer
    /// keeps what it held, and may hold more after it.
    pub fn finish(self, starts: &mut Vec<u8>, bytes: &mut Vec<u8>) -> Result<(), AllocError>
        ensures written { OnOk result (IsSomeAnd self (λ texts.
            (starts.new.items ≡ starts.old.items ++ dictionary_starts texts)
            × (bytes.new.items ≡ bytes.old.items ++ dictionary_bytes texts))) }
        ensures says { OnOk result (IfSome self (λ texts.
            DictionarySays (dictionary_starts texts) (dictionary_bytes texts) texts)) }
        ensures starts_kept { Extends starts.old.items starts.new.items }
        ensures bytes_kept { Extends bytes.old.items bytes.new.items }
    {
        if self.failed {
            return Err(AllocError);
        }
        let count = self.count;
        let FrontBuilder {
            starts: places,
            body,
            last: _,
            count: _,
            failed: _,
        } = self;
        places.finish(starts)?;
        bytes.extend_from_slice(&count.to_be_bytes())?;
        bytes.extend_from_slice(&body)
    }
}

/// Appends entry `i` after the text `last`, and puts it in the place of that. Where it begins a block,
/// the block's place is pushed first.
fn append_entry(
    starts: &mut LogBuilder,
    body: &mut Vec<u8>,
    last: &mut Vec<u8>,
    i: u64,
    entry: &[u8],
) -> Result<(), AllocError>
    ensures starts { OnOk result (MatchBool (i % 8 == 0)
        (IsSomeAnd starts.old (λ places. starts.new ≡ Some (places ++ length body.old.items ∷ [])))
        (starts.new ≡ starts.old)) }
    ensures body { OnOk result (body.new.items ≡ body.old.items
        ++ (if i % 8 == 0 then whole entry.now else added last.old.items entry.now)) }
    ensures last { OnOk result (last.new.items ≡ entry.now) }
{
    if i % BLOCK == 0 {
        starts.push(body.len() as u64)?;
        append_whole(body, entry)?;
        return put_text(last, entry);
    }
    append_added(body, last, entry)?;
    put_text(last, entry)
}
