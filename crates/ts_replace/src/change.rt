// A file is changed whole: its new bytes are settled under another name first.
ghost use Rattle.std.specs.Prelude.{◌≡◌, ◌≢◌, IsTrue, OnOk, Some, is_err};
ghost use Rattle.std.specs.FinMap.{get, insert, contains_key};
ghost use Rattle.ts_site.specs.Folder.{Writes, Renames, moved};
ghost use Rattle.ts_site.specs.Outside.{IsHonest, OnlyDisk};
ghost use Rattle.ts_replace.specs.CrashSafe.{LeavesFolder, LeavesStaged, StagesCrash, PlacesCrash, ReplacesCrash, StagesSafely, ReplacesSafely};
ghost use Rattle.ts_replace.specs.Replaced.{new_tmp, replaced, Replaces};

use ts_site::{Disk, Failed, FileName, Site};

/// Writes the bytes to `new.tmp` and settles them. The first failure ends the call. A crash at any moment of it leaves the old
/// folder, compared but for `new.tmp`, where one before did.
pub fn stage<W: Site>(site: &mut W, name: &FileName, bytes: &[u8]) -> Result<(), Failed>
    requires { name.now ≢ new_tmp }
    ensures folder { IsHonest (W.outside site.new)
        → (Writes result new_tmp (insert (W.outside site.old).folder new_tmp bytes.now) (W.outside site.old).folder (W.outside site.new).folder) }
    ensures crash { IsHonest (W.outside site.new) → StagesCrash result bytes.now (W.outside site.old).crash (W.outside site.new).crash }
    ensures images { IsHonest (W.outside site.new) → LeavesFolder (W.outside site.old).folder (W.outside site.old).crash
        → StagesSafely result bytes.now (W.outside site.old) (W.outside site.new) }
    ensures disk { OnlyDisk (is_err result) (W.outside site.old) (W.outside site.new) }
{
    let temporary = temporary_name();
    site.create(&temporary)?;
    site.append(&temporary, bytes)?;
    site.sync(&temporary)
}

/// Moves `new.tmp` to the name and settles the names. The first failure ends the call.
pub fn place<W: Site>(site: &mut W, name: &FileName, bytes: &[u8]) -> Result<(), Failed>
    requires other { name.now ≢ new_tmp }
    requires standing { IsHonest (W.outside site.old) → IsTrue (contains_key (W.outside site.old).folder new_tmp) }
    ensures folder { IsHonest (W.outside site.new)
        → (Renames result (moved (W.outside site.old).folder new_tmp name.now) (W.outside site.old).folder (W.outside site.new).folder) }

    // Where `new.tmp` holds the bytes, the name holds them.
    ensures staged { IsHonest (W.outside site.new) → get (W.outside site.old).folder new_tmp ≡ Some bytes.now
        → OnOk result ((W.outside site.new).folder ≡ replaced (W.outside site.old).folder name.now bytes.now) }
    ensures crash { IsHonest (W.outside site.new) → PlacesCrash result name.now (W.outside site.old).crash (W.outside site.new).crash }
    ensures images { IsHonest (W.outside site.new) → LeavesFolder (W.outside site.old).folder (W.outside site.old).crash → LeavesStaged bytes.now (W.outside site.old).crash
        → ReplacesSafely result name.now bytes.now (W.outside site.old) (W.outside site.new) }
    ensures disk { OnlyDisk (is_err result) (W.outside site.old) (W.outside site.new) }
{
    site.rename(&temporary_name(), name)?;
    site.sync_names()
}

/// Gives the name these bytes: `stage`, and then `place`. The first failure ends the call. Where a crash before leaves the old
/// folder, compared but for `new.tmp`, one at any moment of the call leaves that or the folder with the new bytes under the
/// name, and one after Ok leaves the latter.
pub fn replace<W: Site>(site: &mut W, name: &FileName, bytes: &[u8]) -> Result<(), Failed>
    requires { name.now ≢ new_tmp }
    ensures folder { IsHonest (W.outside site.new)
        → (Replaces result name.now bytes.now (W.outside site.old).folder (W.outside site.new).folder) }
    ensures crash { IsHonest (W.outside site.new) → ReplacesCrash result name.now bytes.now (W.outside site.old).crash (W.outside site.new).crash }
    ensures images { IsHonest (W.outside site.new) → LeavesFolder (W.outside site.old).folder (W.outside site.old).crash
        → ReplacesSafely result name.now bytes.now (W.outside site.old) (W.outside site.new) }
    ensures disk { OnlyDisk (is_err result) (W.outside site.old) (W.outside site.new) }
{
    stage(site, name, bytes)?;
    place(site, name, bytes)
}

fn temporary_name() -> FileName
    ensures { result ≡ new_tmp }
{
    FileName::of(b"new.tmp").unwrap()
}
