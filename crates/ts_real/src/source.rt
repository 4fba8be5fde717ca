// Standard input.
ghost use Rattle.std.specs.Prelude.{◌≡◌, false, []};

use crate::count::counted;
use crate::reading::read_some;
use std::io::Read;
use ts_site::{Failed, Source};

/// An input, which `main` makes of standard input.
#[derive(Drop)]
pub struct RealSource<I> {
    input: I,
    faults: u64,
    failed_last: bool,
}

impl<I: Read + Drop> RealSource<I> {
    ghost use Rattle.ts_real.specs.Real.{real_faults};

    /// The source of this input, without faults yet.
    pub fn new(input: I) -> RealSource<I>
        ensures { real_faults result ≡ 0 }
    {
        RealSource {
            input,
            faults: 0,
            failed_last: false,
        }
    }
}

impl<I: Read + Drop> Source for RealSource<I> {
    ghost use Rattle.ts_real.specs.Real.{real_faults, real_failed_last};

    ghost tells = { λ source. false };

    ghost left = { λ source. [] };

    ghost faults = { real_faults };

    ghost failed_last = { real_failed_last };

    fn take(&mut self, into: &mut [u8]) -> Result<usize, Failed> {
        counted(
            &mut self.faults,
            &mut self.failed_last,
            read_some(&mut self.input, into),
        )
    }
}
