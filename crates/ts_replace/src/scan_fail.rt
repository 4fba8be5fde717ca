// Why a folder or a file could not be read.
ghost use Rattle.std.specs.Prelude.{◌≡◌};
ghost use Rattle.ts_replace.specs.ScanFail.{scan_fail_of};
ghost use Rattle.ts_replace.specs.declared.scan_fail.ScanFail.TheVariants as scan_fail;

use std::alloc::AllocError;
use ts_site::{Failed, ListFail};

/// Why a folder or a file could not be read.
#[derive(Clone, Copy, Debug, PartialEq, Eq)]
pub enum ScanFail {
    /// The disk failed. The count of its faults rose.
    Failed,
    /// Memory ran out.
    Memory,
}

impl From<Failed> for ScanFail {
    ghost from_gives = { λ _ e. e ≡ scan_fail.Failed };

    fn from(_: Failed) -> Self {
        ScanFail::Failed
    }
}

impl From<AllocError> for ScanFail {
    ghost from_gives = { λ _ e. e ≡ scan_fail.Memory };

    fn from(_: AllocError) -> Self {
        ScanFail::Memory
    }
}

impl From<ListFail> for ScanFail {
    ghost from_gives = { λ fail e. e ≡ scan_fail_of fail };

    fn from(fail: ListFail) -> Self {
        match fail {
            ListFail::Failed => ScanFail::Failed,
            ListFail::Memory => ScanFail::Memory,
        }
    }
}
