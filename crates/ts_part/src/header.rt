//! The header of a part file.

ghost use Rattle.std.specs.Prelude.{◌≡◌, ◌≢◌, ℕ, ◌+◌, ◌^◌, ◌<◌, ◌≤◌, All, ◌↔◌, length, IfNone, IfSome, IsTrue, OnOk, ◌++◌, flat_map};
ghost use Rattle.std.specs.Int.{w16, w32, w64, to_be_bytes};
ghost use Rattle.ts_part.specs.declared.header.Header.{Header};
ghost use Rattle.ts_part.specs.declared.header.PartKind.{PartKind};
ghost use Rattle.ts_part.specs.Header.{FitsHeader, HeaderSays, IsPlaced, KeepsHeaderRules, header_bytes, kind_number, parent_number, section_count};
ghost use Rattle.ts_part.specs.Read.{IsFixed, fields_in, number_at, parent_in};
ghost use Rattle.ts_part.specs.Written.{kind_bytes};

use std::alloc::AllocError;
use ts_model::NUMBER_LIMIT;

/// How many bytes the header takes.
pub const HEADER: usize = 88;

/// A part is a layer, or a rollup of layers.
#[derive(Clone, Copy, PartialEq, Eq, Hash, Debug)]
pub enum PartKind {
    Layer,
    Rollup,
}

impl PartKind {
    /// How many sections a file of this kind has.
    pub(crate) fn sections(self) -> usize
        ensures { result ≡ section_count self }
    {
        match self {
            PartKind::Layer => 22,
            PartKind::Rollup => 24,
        }
    }

    /// The kind's byte in a header.
    fn byte(self) -> u8
        ensures { result ≡ kind_number self }
    {
        match self {
            PartKind::Layer => 1,
            PartKind::Rollup => 2,
        }
    }
}

/// What the header of a part file says: which part it is, how many terms and predicates come before it,
/// how many of each kind are new, how many triples come and go, and how long the file is in bytes.
#[derive(Clone, Copy, PartialEq, Eq, Debug)]
pub struct Header {
    pub kind: PartKind,
    /// Of the layer, at least 1.
    pub number: u32,
    /// The parent of a layer; the layer up to which a rollup reaches.
    pub parent: Option<u32>,
    pub terms_before: u64,
    pub predicates_before: u64,
    pub nodes: u64,
    pub values: u64,
    pub predicates: u64,
    pub additions: u64,
    pub removals: u64,
    pub length: u64,
}

/// The header that these bytes are, and `None` exactly where they break a rule of headers.
pub fn header_of(bytes: &[u8; 88]) -> Option<Header>
    ensures some { IfSome result (HeaderSays bytes.now) }
    ensures only { IfSome result (λ h. (other : Header) → HeaderSays bytes.now other → other ≡ h) }
    ensures none { IfNone result ((h : Header) → ¬ HeaderSays bytes.now h) }
{
    read_header(bytes)
}

/// The header that 88 bytes are.
fn read_header(bytes: &[u8]) -> Option<Header>
    requires { length bytes.now ≡ 88 }
    ensures some { IfSome result (HeaderSays bytes.now) }
    ensures only { IfSome result (λ h. (other : Header) → HeaderSays bytes.now other → other ≡ h) }
    ensures none { IfNone result ((h : Header) → ¬ HeaderSays bytes.now h) }
{
    let Some(kind) = kind_of(bytes[8]) else {
        return None;
    };
    let header = fields_of(bytes, kind);
    if has_fixed_fields(bytes, kind) && keeps_rules(&header) {
        Some(header)
    } else {
        None
    }
}

/// The kind of this byte in a header.
fn kind_of(byte: u8) -> Option<PartKind>
    ensures some { IfSome result (λ kind. byte ≡ kind_number kind) }
    ensures none { IfNone result ((kind : PartKind) → byte ≢ kind_number kind) }
{
    match byte {
        1 => Some(PartKind::Layer),
        2 => Some(PartKind::Rollup),
        _ => None,
    }
}

/// Whether the fields are right that each header of the kind has alike.
fn has_fixed_fields(bytes: &[u8], kind: PartKind) -> bool
    requires { length bytes.now ≡ 88 }
    ensures { IsTrue result ↔ IsFixed bytes.now kind }
{
    &bytes[..8] == b"TSPART\0\x01".as_slice()
        && bytes[9] == 1
        && u64::from(u16_at(bytes, 10)) == kind.sections() as u64
        && u32_at(bytes, 20) == 0
}

/// The fields that headers differ in.
fn fields_of(bytes: &[u8], kind: PartKind) -> Header
    requires { length bytes.now ≡ 88 }
    ensures { result ≡ fields_in kind bytes.now }
{
    Header {
        kind,
        number: u32_at(bytes, 12),
        parent: parent_of(u32_at(bytes, 16)),
        terms_before: u64_at(bytes, 24),
        predicates_before: u64_at(bytes, 32),
        nodes: u64_at(bytes, 40),
        values: u64_at(bytes, 48),
        predicates: u64_at(bytes, 56),
        additions: u64_at(bytes, 64),
        removals: u64_at(bytes, 72),
        length: u64_at(bytes, 80),
    }
}

/// 0 stands for no parent.
fn parent_of(number: u32) -> Option<u32>
    ensures { result ≡ parent_in number }
{
    if number == 0 { None } else { Some(number) }
}

/// Whether a header keeps its rules.
pub(crate) fn keeps_rules(h: &Header) -> bool
    ensures { IsTrue result ↔ KeepsHeaderRules h.now }
{
    let terms = u128::from(h.terms_before) + u128::from(h.nodes) + u128::from(h.values);
    let predicates = u128::from(h.predicates_before) + u128::from(h.predicates);
    h.number >= 1
        && is_placed(h)
        && terms < u128::from(NUMBER_LIMIT)
        && predicates < u128::from(NUMBER_LIMIT)
}

/// Whether the parent comes before the layer; without a parent nothing comes before, and nothing goes.
fn is_placed(h: &Header) -> bool
    ensures { IsTrue result ↔ IsPlaced h.now }
{
    match h.parent {
        Some(parent) => parent >= 1 && parent < h.number,
        None => h.terms_before == 0 && h.predicates_before == 0 && h.removals == 0,
    }
}

/// Appends the bytes of a header.
pub(crate) fn write_header(h: &Header, into: &mut Vec<u8>) -> Result<(), AllocError>
    ensures written { OnOk result (into.new.items ≡ into.old.items ++ header_bytes h.now) }
    ensures fits { OnOk result (FitsHeader h.now) }
{
    write_kind(h.kind, into)?;
    write_u32(h.number, into)?;
    write_u32(number_of_parent(h.parent), into)?;
    write_u32(0, into)?;
    write_numbers(&[h.terms_before, h.predicates_before], into)?;
    write_numbers(&[h.nodes, h.values, h.predicates], into)?;
    write_numbers(&[h.additions, h.removals, h.length], into)?;
    Ok(())
}

/// The number that stands for a parent, or for none.
fn number_of_parent(parent: Option<u32>) -> u32
    ensures { result ≡ parent_number parent }
{
    match parent {
        Some(parent) => parent,
        None => 0,
    }
}

/// Appends the fields that each header of the kind begins with.
fn write_kind(kind: PartKind, into: &mut Vec<u8>) -> Result<(), AllocError>
    ensures { OnOk result (into.new.items ≡ into.old.items ++ kind_bytes kind) }
{
    into.extend_from_slice(b"TSPART\0\x01")?;
    into.extend_from_slice(&[kind.byte(), 1])?;
    into.extend_from_slice(&(kind.sections() as u16).to_be_bytes())?;
    Ok(())
}

/// Appends eight bytes for each of the numbers.
fn write_numbers(numbers: &[u64], into: &mut Vec<u8>) -> Result<(), AllocError>
    ensures written { OnOk result (into.new.items ≡ into.old.items ++ flat_map (to_be_bytes w64) numbers.now) }
    ensures fits { All (λ number. number < 2 ^ 64) numbers.now }
{
    for number in numbers {
        write_u64(*number, into)?;
    }
    Ok(())
}

/// Appends the four bytes of a number.
pub(crate) fn write_u32(number: u32, into: &mut Vec<u8>) -> Result<(), AllocError>
    ensures written { OnOk result (into.new.items ≡ into.old.items ++ to_be_bytes w32 number) }
    ensures fits { number < 2 ^ 32 }
{
    into.extend_from_slice(&number.to_be_bytes())
}

/// Appends the eight bytes of a number.
pub(crate) fn write_u64(number: u64, into: &mut Vec<u8>) -> Result<(), AllocError>
    ensures { OnOk result (into.new.items ≡ into.old.items ++ to_be_bytes w64 number) }
{
    into.extend_from_slice(&number.to_be_bytes())
}

/// The number of two bytes at a place.
fn u16_at(bytes: &[u8], place: usize) -> u16
    requires { place + 2 ≤ length bytes.now }
    ensures { result ≡ number_at w16 bytes.now place }
{
    let number = &bytes[place..place + 2];
    u16::from_be_bytes([number[0], number[1]])
}

/// The number of four bytes at a place.
pub(crate) fn u32_at(bytes: &[u8], place: usize) -> u32
    requires { place + 4 ≤ length bytes.now }
    ensures { result ≡ number_at w32 bytes.now place }
{
    let number = &bytes[place..place + 4];
    u32::from_be_bytes([number[0], number[1], number[2], number[3]])
}

/// The number of eight bytes at a place.
pub(crate) fn u64_at(bytes: &[u8], place: usize) -> u64
    requires { place + 8 ≤ length bytes.now }
    ensures { result ≡ number_at w64 bytes.now place }
{
    let number = &bytes[place..place + 8];
    u64::from_be_bytes([
        number[0], number[1], number[2], number[3], number[4], number[5], number[6], number[7],
    ])
}
