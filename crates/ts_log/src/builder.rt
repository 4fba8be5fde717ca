//! A list of numbers that grows at its end, to be written as a log array.

ghost use Rattle.std.specs.Prelude.{◌≡◌, ◌++◌, ◌∷◌, [], OnOk, OnErr, IsSomeAnd, IfSome};
ghost use Rattle.ts_log.specs.Buffer.{Extends};
ghost use Rattle.ts_log.specs.LogArray.{log_array_of, LogSays};

use crate::write::write_log_array;
use std::alloc::{AllocError, Global};
use std::marker::Model;

/// The numbers of a log array to come. After want of memory all later calls of a builder answer want
/// of memory.
#[derive(Drop)]
pub struct LogBuilder {
    numbers: Vec<u64>,
    failed: bool,
}

impl Model for LogBuilder {
    ghost use Rattle.std.specs.Prelude.{ℕ, List, Option, Some, None, if◌then◌else◌};

    ghost Value = { Option (List ℕ) };

    ghost view = { λ b. if b.failed then None else Some b.numbers.items };
}

impl LogBuilder {
    /// A builder without numbers. It takes no memory.
    pub fn new(alloc: Global) -> LogBuilder
        ensures { result ≡ Some [] }
    {
        LogBuilder {
            numbers: Vec::new(alloc),
            failed: false,
        }
    }

    /// Adds a number at the end.
    pub fn push(&mut self, x: u64) -> Result<(), AllocError>
        ensures pushed { OnOk result (IsSomeAnd self.old (λ numbers.
            self.new ≡ Some (numbers ++ x ∷ []))) }
        ensures failed { OnErr result (self.new ≡ None) }
    {
        if self.failed {
            return Err(AllocError);
        }
        match self.numbers.push(x) {
            Ok(()) => Ok(()),
            Err(_) => {
                self.failed = true;
                Err(AllocError)
            }
        }
    }

    /// Appends the log array of the numbers pushed. After want of memory the buffer keeps what it
    /// held, and may hold more after it.
    pub fn finish(self, into: &mut Vec<u8>) -> Result<(), AllocError>
        ensures written { OnOk result (IsSomeAnd self (λ numbers.
            into.new.items ≡ into.old.items ++ log_array_of numbers)) }
        ensures says { OnOk result (IfSome self (λ numbers. LogSays (log_array_of numbers) numbers)) }
        ensures kept { Extends into.old.items into.new.items }
    {
        if self.failed {
            return Err(AllocError);
        }
        write_log_array(&self.numbers, into)
    }
}
