//! A front-coded dictionary read where it lies.

ghost use Rattle.std.specs.Prelude.{◌≡◌, ◌≢◌, ℕ, ◌+◌, ◌*◌, ◌/◌, ◌^◌, ◌<◌, ◌++◌, ◌↔◌, List, length, IfSome, IfNone, IsTrue, OnOk};
ghost use Rattle.std.specs.Cmp.Lexicographic.{slice_cmp};
ghost use Rattle.std.specs.Ordering.{nat_cmp};
ghost use Rattle.std.specs.Int.{w64, to_be_bytes};
ghost use Rattle.std.specs.declared.cmp.Ordering.TheVariants.{Greater};
ghost use Rattle.ts_log.specs.Buffer.{Extends};
ghost use Rattle.ts_front.specs.Dictionary.{DictionarySays, DictionarySaysOnly, place_of};
ghost use Rattle.ts_front.specs.Pieces.{pieces_of, shared_at, suffix_at};
ghost use Rattle.ts_front.specs.Shared.{text_at};

use crate::append::append_last;
use crate::check::is_body;
use crate::compare::{compare_last, find_equal};
use crate::entries::Entries;
use crate::order::order_of;
use crate::piece::{BLOCK, Piece, piece_at};
use std::alloc::AllocError;
use std::cmp::Ordering;
use std::marker::Model;
use ts_log::LogView;

/// How many bytes the number of entries takes.
const COUNT: usize = 8;

/// A rising list of texts in the two sections of its dictionary. No call takes memory but
/// [`FrontView::entry`].
#[derive(Drop)]
pub struct FrontView<'a> {
    starts: LogView<'a>,
    body: &'a [u8],
    count: u64,
}

impl<'a> Model for FrontView<'a> {
    ghost use Rattle.std.specs.Prelude.{◌≡◌, ℕ, List, length};
    ghost use Rattle.ts_front.specs.Pieces.{IsBody};
    ghost use Rattle.ts_front.specs.Reading.{texts_in};

    ghost Value = { List (List ℕ) };

    ghost view = { λ v. texts_in v.count v.body.now };

    ghost invariant = { λ v. (length (texts_in v.count v.body.now) ≡ v.count)
        × IsBody v.starts v.body.now (texts_in v.count v.body.now) };
}

/// The number of entries, and the bytes of the entries.
fn split_count(bytes: &[u8]) -> Option<(u64, &[u8])>
    ensures some { IfSome result (λ found. bytes.now ≡ to_be_bytes w64 found.0 ++ found.1.now) }
    ensures fits { IfSome result (λ found. found.0 < 2 ^ 64) }
    ensures none { IfNone result (length bytes.now < 8) }
{
    if bytes.len() < COUNT {
        return None;
    }
    let count = u64::from_be_bytes([
        bytes[0], bytes[1], bytes[2], bytes[3], bytes[4], bytes[5], bytes[6], bytes[7],
    ]);
    Some((count, &bytes[COUNT..]))
}

impl<'a> FrontView<'a> {
    /// The view of these two sections, where they are the dictionary of one list.
    pub fn open(starts: &'a [u8], bytes: &'a [u8]) -> Option<FrontView<'a>>
        ensures some { IfSome result (λ texts. DictionarySays starts.now bytes.now texts) }
        ensures only { IfSome result (DictionarySaysOnly starts.now bytes.now) }
        ensures none { IfNone result ((texts : List (List ℕ)) → ¬ DictionarySays starts.now bytes.now texts) }
    {
        let starts = LogView::open(starts)?;
        let (count, body) = split_count(bytes)?;
        if is_body(&starts, count, body) {
            Some(FrontView {
                starts,
                body,
                count,
            })
        } else {
            None
        }
    }

    /// The view of these two sections, which are the dictionary of a list.
    pub fn of_checked(starts: &'a [u8], bytes: &'a [u8]) -> FrontView<'a>
        requires { (texts : List (List ℕ)) × DictionarySays starts.now bytes.now texts }
        ensures says { DictionarySays starts.now bytes.now result }
        ensures only { DictionarySaysOnly starts.now bytes.now result }
    {
        let starts = LogView::of_checked(starts);
        match split_count(bytes) {
            Some((count, body)) => FrontView {
                starts,
                body,
                count,
            },
            None => unreachable!(),
        }
    }

    /// The same view once more.
    pub fn copy(&self) -> FrontView<'a>
        ensures { result ≡ self.now }
    {
        FrontView {
            starts: self.starts.copy(),
            body: self.body,
            count: self.count,
        }
    }

    /// How many entries there are.
    pub fn len(&self) -> u64
        ensures { result ≡ length self.now }
    {
        self.count
    }

    /// Whether there is no entry.
    pub fn is_empty(&self) -> bool
        ensures { IsTrue result ↔ (length self.now ≡ 0) }
    {
        self.count == 0
    }

    /// The place of the text among the entries: the first entries of the blocks are searched by
    /// quarters, and then the entries of one block.
    pub fn find(&self, text: &[u8]) -> Option<u64>
        ensures found { IfSome result (λ i. (i < length self.now) × (text_at self.now i ≡ text.now)) }
        ensures absent { IfNone result ((i : ℕ) → i < length self.now → text_at self.now i ≢ text.now) }
    {
        let count = self.count;
        let block = self.block_of(text)?;
        let first = block * BLOCK;
        let end = first + BLOCK.min(count - first);
        find_equal(self.body, self.starts.get(block) as usize, first, end, text)
    }

    /// How entry `i` compares with the text.
    pub fn compare(&self, i: u64, text: &[u8]) -> Ordering
        requires { i < length self.now }
        ensures { result ≡ slice_cmp nat_cmp (text_at self.now i) text.now }
    {
        let block = i / BLOCK;
        let place = self.starts.get(block) as usize;
        compare_last(self.body, place, block * BLOCK, i + 1, text)
    }

    /// Appends entry `i`. After want of memory the buffer keeps what it held, and may hold more after
    /// it.
    pub fn entry(&self, i: u64, into: &mut Vec<u8>) -> Result<(), AllocError>
        requires { i < length self.now }
        ensures written { OnOk result (into.new.items ≡ into.old.items ++ text_at self.now i) }
        ensures kept { Extends into.old.items into.new.items }
    {
        let block = i / BLOCK;
        let place = self.starts.get(block) as usize;
        append_last(self.body, place, block * BLOCK, i + 1, into)
    }

    /// Goes over the entries, a piece for each.
    pub fn entries(&self) -> Entries<'a>
        ensures { result ≡ pieces_of self.now }
    {
        Entries::new(self.copy())
    }

    /// The piece of entry `i`, which begins at a place in the bytes, and the place after it.
    pub(crate) fn piece(&self, i: u64, place: usize) -> (Piece<'a>, usize)
        requires within { i < length self.now }
        requires begins { place ≡ place_of self.now i }
        ensures shares { result.0.shared ≡ shared_at self.now i }
        ensures adds { result.0.suffix.now ≡ suffix_at self.now i }
        ensures next { result.1 ≡ place_of self.now (i + 1) }
    {
        match piece_at(self.body, place, i) {
            Some(found) => found,
            None => unreachable!(),
        }
    }

    /// The first entry of a block.
    fn head(&self, block: u64) -> &'a [u8]
        requires { 8 * block < length self.now }
        ensures { result.now ≡ text_at self.now (8 * block) }
    {
        let place = self.starts.get(block) as usize;
        let (piece, _) = self.piece(block * BLOCK, place);
        piece.suffix
    }

    /// Whether the first entry of a block is above the text.
    fn is_above(&self, block: u64, text: &[u8]) -> bool
        requires { 8 * block < length self.now }
        ensures { IsTrue result ↔ (slice_cmp nat_cmp (text_at self.now (8 * block)) text.now ≡ Greater) }
    {
        order_of(self.head(block), text).is_gt()
    }

    /// The last block whose first entry is not above the text: a search by quarters, which looks at
    /// three first entries at once, so that their bytes are fetched together.
    fn block_of(&self, text: &[u8]) -> Option<u64>
        ensures some { IfSome result (λ block. (8 * block < length self.now)
            × (slice_cmp nat_cmp (text_at self.now (8 * block)) text.now ≢ Greater)
            × ((later : ℕ) → block < later → 8 * later < length self.now
            → slice_cmp nat_cmp (text_at self.now (8 * later)) text.now ≡ Greater)) }
        ensures none { IfNone result (0 < length self.now → slice_cmp nat_cmp (text_at self.now 0) text.now ≡ Greater) }
    {
        let mut low = 0;
        let mut high = self.starts.len();
        while low < high {
            let middle = low + (high - low) / 2;
            let first = low + (middle - low) / 2;
            let last = middle + (high - middle) / 2;
            let first_above = self.is_above(first, text);
            let middle_above = self.is_above(middle, text);
            let last_above = self.is_above(last, text);
            if first_above {
                high = first;
            } else if middle_above {
                low = first + 1;
                high = middle;
            } else if last_above {
                low = middle + 1;
                high = last;
            } else {
                low = last + 1;
            }
        }
        if low == 0 { None } else { Some(low - 1) }
    }
}
