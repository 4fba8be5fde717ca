//! The eight sections of a list of triples.

ghost use Rattle.std.specs.Prelude.{◌≡◌, ◌<◌, ◌≤◌, ◌∷◌, All, IfOk, Some, false, length, map, nat_eq, slice_index_or};
ghost use Rattle.std.specs.List.{dedup};
ghost use Rattle.ts_bits.specs.BitArray.{BitsSay};
ghost use Rattle.ts_log.specs.LogArray.{LogSays};
ghost use Rattle.ts_wavelet.specs.WaveletTree.{WaveletSays};
ghost use Rattle.ts_plane.specs.Groups.{last_marks};
ghost use Rattle.ts_plane.specs.Parts.{pair_edges, pair_of, pairs_of, same_pair};
ghost use Rattle.ts_plane.specs.Plane.{PlaneSays};
ghost use Rattle.ts_plane.specs.Triple.{IsPlaneList, IsRising};
ghost use Rattle.ts_plane.specs.Turned.{IsForward, turned};

use crate::triple::IdTriple;
use std::alloc::{AllocError, Global};
use ts_bits::BitBuilder;
use ts_log::write_log_array;
use ts_wavelet::write_wavelet;

/// The eight sections of the plane of these triples, in their order.
pub fn write_plane(alloc: Global, triples: &[IdTriple]) -> Result<[Vec<u8>; 8], AllocError>
    requires { IsPlaneList triples.now }
    ensures { IfOk result (λ sections. PlaneSays (map (λ section. section.items) sections) triples.now) }
{
    let pairs = pairs_of(alloc, triples)?;
    let edges = edges_of(alloc, triples)?;
    let turned = turned_of(alloc, &edges)?;
    let pair_subjects = firsts(alloc, &pairs)?;
    let edge_objects = firsts(alloc, &turned)?;
    Ok([
        log_array(alloc, &distinct(alloc, &pair_subjects)?)?,
        ends(alloc, &pair_subjects)?,
        wavelet_tree(alloc, &seconds(alloc, &pairs)?)?,
        ends(alloc, &firsts(alloc, &edges)?)?,
        log_array(alloc, &seconds(alloc, &edges)?)?,
        log_array(alloc, &distinct(alloc, &edge_objects)?)?,
        ends(alloc, &edge_objects)?,
        log_array(alloc, &seconds(alloc, &turned)?)?,
    ])
}

/// The distinct pairs of a subject and a predicate.
fn pairs_of(alloc: Global, triples: &[IdTriple]) -> Result<Vec<(u64, u64)>, AllocError>
    ensures { IfOk result (λ pairs. pairs.items ≡ pairs_of triples.now) }
{
    let mut pairs = Vec::with_capacity(alloc, triples.len())?;
    for t in triples {
        pairs.push((t.s, t.p))?;
    }
    pairs.dedup();
    Ok(pairs)
}

/// For each triple the place of its pair, and its object.
fn edges_of(alloc: Global, triples: &[IdTriple]) -> Result<Vec<(u64, u64)>, AllocError>
    requires { IsRising triples.now }
    ensures { IfOk result (λ edges. edges.items ≡ pair_edges triples.now) }
{
    let mut edges = Vec::with_capacity(alloc, triples.len())?;
    let mut place = 0;
    for i in 0..triples.len() {
        place += u64::from(begins_pair(triples, i));
        edges.push((place, triples[i].o))?;
    }
    Ok(edges)
}

/// Whether a triple stands behind another that is the last of its pair.
fn begins_pair(triples: &[IdTriple], i: usize) -> bool
    requires { i < length triples.now }
    ensures { result ≡ slice_index_or (false ∷ last_marks same_pair (map pair_of triples.now)) i false }
{
    if i == 0 {
        return false;
    }
    let before = triples[i - 1];
    let t = triples[i];
    !(t.s == before.s && t.p == before.p)
}

/// The edges turned around, rising.
fn turned_of(alloc: Global, edges: &[(u64, u64)]) -> Result<Vec<(u64, u64)>, AllocError>
    requires { IsForward edges.now }
    ensures { IfOk result (λ rows. rows.items ≡ turned edges.now) }
{
    let mut rows = Vec::with_capacity(alloc, edges.len())?;
    for edge in edges {
        rows.push((edge.1, edge.0))?;
    }
    rows.sort_unstable();
    Ok(rows)
}

/// The first number of each pair.
fn firsts(alloc: Global, pairs: &[(u64, u64)]) -> Result<Vec<u64>, AllocError>
    ensures { IfOk result (λ numbers. numbers.items ≡ map (λ pair. pair.0) pairs.now) }
{
    let mut numbers = Vec::with_capacity(alloc, pairs.len())?;
    for pair in pairs {
        numbers.push(pair.0)?;
    }
    Ok(numbers)
}

/// The second number of each pair.
fn seconds(alloc: Global, pairs: &[(u64, u64)]) -> Result<Vec<u64>, AllocError>
    ensures { IfOk result (λ numbers. numbers.items ≡ map (λ pair. pair.1) pairs.now) }
{
    let mut numbers = Vec::with_capacity(alloc, pairs.len())?;
    for pair in pairs {
        numbers.push(pair.1)?;
    }
    Ok(numbers)
}

/// The numbers, without those that are as the one before.
fn distinct(alloc: Global, numbers: &[u64]) -> Result<Vec<u64>, AllocError>
    ensures { IfOk result (λ kept. kept.items ≡ dedup nat_eq numbers.now) }
{
    let mut kept = Vec::with_capacity(alloc, numbers.len())?;
    kept.extend_from_slice(numbers)?;
    kept.dedup();
    Ok(kept)
}

/// The bytes of the log array.
fn log_array(alloc: Global, numbers: &[u64]) -> Result<Vec<u8>, AllocError>
    ensures { IfOk result (λ bytes. LogSays bytes.items numbers.now) }
{
    let mut bytes = Vec::new(alloc);
    write_log_array(numbers, &mut bytes)?;
    Ok(bytes)
}

/// The bytes of the wavelet tree.
fn wavelet_tree(alloc: Global, numbers: &[u64]) -> Result<Vec<u8>, AllocError>
    requires { All (λ x. 1 ≤ x) numbers.now }
    ensures { IfOk result (λ bytes. WaveletSays bytes.items numbers.now) }
{
    let mut bytes = Vec::new(alloc);
    write_wavelet(alloc, numbers, &mut bytes)?;
    Ok(bytes)
}

/// The bytes of the bits that mark the last of each group of the same key.
fn ends(alloc: Global, keys: &[u64]) -> Result<Vec<u8>, AllocError>
    ensures { IfOk result (λ bytes. BitsSay bytes.items (last_marks nat_eq keys.now)) }
{
    let bits = marks(alloc, keys)?;
    let mut bytes = Vec::new(alloc);
    bits.finish(&mut bytes)?;
    Ok(bytes)
}

/// For each key whether it is the last of its group.
fn marks(alloc: Global, keys: &[u64]) -> Result<BitBuilder, AllocError>
    ensures { IfOk result (λ bits. bits ≡ Some (last_marks nat_eq keys.now)) }
{
    let mut bits = BitBuilder::new(alloc);
    for i in 0..keys.len() {
        bits.push(is_last(keys, i))?;
    }
    Ok(bits)
}

/// Whether the key is the last of its group.
fn is_last(keys: &[u64], i: usize) -> bool
    requires { i < length keys.now }
    ensures { result ≡ slice_index_or (last_marks nat_eq keys.now) i false }
{
    if i + 1 == keys.len() {
        return true;
    }
    !(keys[i + 1] == keys[i])
}
