//! Entries by what they add to the ones before them, read from bytes.

ghost use Rattle.std.specs.Prelude.{◌≡◌, ◌≢◌, ◌==◌, ℕ, ◌+◌, ◌-◌, ◌%◌, ◌^◌, ◌<◌, ◌≤◌, ◌++◌, List, IsTrue, length, take, drop, IfSome, IfNone};
ghost use Rattle.ts_vbyte.specs.Spelling.{NumberSays};
ghost use Rattle.ts_front.specs.Dictionary.{whole};
ghost use Rattle.ts_front.specs.Pieces.{piece_bytes};

use ts_vbyte::get;

/// How many entries a block has, but for the last one.
pub const BLOCK: u64 = 8;

/// The bit that the last byte of a number has alone.
const LAST: u8 = 0x80;

/// What an entry adds: it is the first `shared` bytes of the entry before it, and then `suffix`.
#[derive(Clone, Copy)]
pub struct Piece<'a> {
    pub shared: usize,
    pub suffix: &'a [u8],
}

/// The number at the start of the bytes, and how many bytes it takes: most take one, and for these no
/// loop is begun.
fn read_number(bytes: &[u8]) -> Option<(u64, usize)>
    ensures some { IfSome result (λ found.
        (found.1 ≤ length bytes.now) × NumberSays (take found.1 bytes.now) found.0) }
    ensures none { IfNone result ((size x : ℕ) → ¬ NumberSays (take size bytes.now) x) }
{
    if !bytes.is_empty() && bytes[0] >= LAST {
        return Some((u64::from(bytes[0] - LAST), 1));
    }
    get(bytes)
}

/// The whole text at the start of the bytes, and how many bytes it takes.
fn read_whole(bytes: &[u8]) -> Option<(&[u8], usize)>
    ensures some { IfSome result (λ found.
        (found.1 ≤ length bytes.now) × (take found.1 bytes.now ≡ whole found.0.now)) }
    ensures none { IfNone result ((text rest : List ℕ) → length text < 2 ^ 64 → bytes.now ≢ whole text ++ rest) }
{
    let (count, size) = read_number(bytes)?;
    let rest = &bytes[size..];
    if count > rest.len() as u64 {
        return None;
    }
    let count = count as usize;
    Some((&rest[..count], size + count))
}

/// The piece at the start of the bytes, and how many bytes it takes. A head is the first entry of a
/// block, which is whole.
pub fn read_piece(bytes: &[u8], head: bool) -> Option<(Piece<'_>, usize)>
    ensures some { IfSome result (λ found.
        (found.1 ≤ length bytes.now)
        × (take found.1 bytes.now ≡ piece_bytes head found.0.shared found.0.suffix.now)
        × (IsTrue head → found.0.shared ≡ 0)) }
    ensures none { IfNone result ((shared : ℕ) (suffix rest : List ℕ) → shared < 2 ^ 64 → length suffix < 2 ^ 64
        → bytes.now ≢ piece_bytes head shared suffix ++ rest) }
{
    if head {
        let (suffix, size) = read_whole(bytes)?;
        return Some((Piece { shared: 0, suffix }, size));
    }
    let (shared, size) = read_number(bytes)?;
    let (suffix, more) = read_whole(&bytes[size..])?;
    let piece = Piece {
        shared: shared as usize,
        suffix,
    };
    Some((piece, size + more))
}

/// The piece of entry `i` at a place in the bytes, and the place after it.
pub fn piece_at(body: &[u8], place: usize, i: u64) -> Option<(Piece<'_>, usize)>
    requires { place ≤ length body.now }
    ensures some { IfSome result (λ found.
        (place ≤ found.1) × (found.1 ≤ length body.now)
        × (take (found.1 - place) (drop place body.now) ≡ piece_bytes (i % 8 == 0) found.0.shared found.0.suffix.now)
        × (i % 8 ≡ 0 → found.0.shared ≡ 0)) }
    ensures none { IfNone result ((shared : ℕ) (suffix rest : List ℕ) → shared < 2 ^ 64 → length suffix < 2 ^ 64
        → drop place body.now ≢ piece_bytes (i % 8 == 0) shared suffix ++ rest) }
{
    let (piece, size) = read_piece(&body[place..], i % BLOCK == 0)?;
    Some((piece, place + size))
}
