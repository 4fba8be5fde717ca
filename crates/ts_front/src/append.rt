//! Entries appended to a buffer.

ghost use Rattle.std.specs.Prelude.{◌≡◌, ℕ, ◌+◌, ◌-◌, ◌<◌, ◌≤◌, ◌++◌, List, OnOk};
ghost use Rattle.ts_log.specs.Buffer.{Extends};
ghost use Rattle.ts_front.specs.Pieces.{IsBlock};
ghost use Rattle.ts_front.specs.Shared.{text_at};

use crate::piece::piece_at;
use std::alloc::AllocError;

/// Appends the entry before `end`, in the block that begins with the entry `first` at `place`. After
/// want of memory the buffer keeps what it held, and may hold more after it.
pub fn append_last(
    body: &[u8],
    place: usize,
    first: u64,
    end: u64,
    into: &mut Vec<u8>,
) -> Result<(), AllocError>
    requires some { first < end }
    requires within { end ≤ first + 8 }
    requires block { (texts : List (List ℕ)) × IsBlock body.now place first end texts }
    ensures written { (texts : List (List ℕ)) → IsBlock body.now place first end texts
        → OnOk result (into.new.items ≡ into.old.items ++ text_at texts (end - 1)) }
    ensures kept { Extends into.old.items into.new.items }
{
    let kept = into.len();
    let mut at = place;
    for i in first..end {
        let Some((piece, next)) = piece_at(body, at, i) else {
            unreachable!()
        };
        into.truncate(kept + piece.shared);
        into.extend_from_slice(piece.suffix)?;
        at = next;
    }
    Ok(())
}
