//! The bytes of a number map, appended to a buffer.

ghost use Rattle.std.specs.Prelude.{◌≡◌, ◌++◌, IfOk, OnOk, OnErr};
ghost use Rattle.ts_log.specs.Buffer.{Extends};
ghost use Rattle.ts_idmap.specs.IdMap.{map_of, MapSays};
ghost use Rattle.ts_idmap.specs.Permutation.{Permutes, inverse_of};

use std::alloc::{AllocError, Global};
use ts_log::write_log_array;

/// Appends the map of a permutation: `outer` has the outer number of each entry. After want of memory
/// the buffer keeps what it held, and may hold more after it.
pub fn write_idmap(alloc: Global, outer: &[u64], into: &mut Vec<u8>) -> Result<(), AllocError>
    requires { Permutes outer.now }
    ensures written { OnOk result (into.new.items ≡ into.old.items ++ map_of outer.now) }
    ensures kept { Extends into.old.items into.new.items }
    ensures says { MapSays (map_of outer.now) outer.now }
{
    let inverse = inverse_of(alloc, outer)?;
    write_log_array(outer, into)?;
    write_log_array(&inverse, into)
}

/// The inverse of a permutation.
fn inverse_of(alloc: Global, outer: &[u64]) -> Result<Vec<u64>, AllocError>
    requires { Permutes outer.now }
    ensures { IfOk result (λ inverse. inverse.items ≡ inverse_of outer.now) }
{
    let mut inverse = vec![in alloc; 0; outer.len()]?;
    for (entry, number) in outer.iter().enumerate() {
        inverse[*number as usize] = entry as u64;
    }
    Ok(inverse)
}
