// Reading a whole file.
ghost use Rattle.std.specs.Prelude.{◌≡◌, [], IsTrue, IfOk, unwrap_or};
ghost use Rattle.std.specs.FinMap.{get};
ghost use Rattle.ts_site.specs.Faults.{is_err_and};
ghost use Rattle.ts_site.specs.Outside.{IsHonest, KeepsCrash, OnlyReads};
ghost use Rattle.ts_replace.specs.ScanFail.{is_scan_fault};

use crate::ScanFail;
use std::alloc::Global;
use ts_site::{Disk, FileName, Site};

/// The bytes of a file. An absent name is read as no bytes. Where a read gives no byte before the size is
/// reached, these are the bytes so far.
pub fn read_file<W: Site>(alloc: Global, site: &mut W, name: &FileName) -> Result<Vec<u8>, ScanFail>
    ensures bytes { IsHonest (W.outside site.new) → IfOk result (λ bytes. bytes.items ≡ unwrap_or (get (W.outside site.old).folder name.now) []) }
    ensures crash { KeepsCrash (W.outside site.old) (W.outside site.new) }
    ensures reads { OnlyReads (is_err_and is_scan_fault result) (W.outside site.old) (W.outside site.new) }
{
    let Some(size) = site.size(name)? else {
        return Ok(Vec::new(alloc));
    };
    let mut bytes = vec![in alloc; 0; size as usize]?;
    let mut place = 0;
    while place < bytes.len() {
        let count = site.read_at(name, place as u64, &mut bytes[place..])?;
        if count == 0 {
            break;
        }
        place += count;
    }
    bytes.truncate(place);
    Ok(bytes)
}
