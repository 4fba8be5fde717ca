// What stands in a folder.
ghost use Rattle.std.specs.Prelude.{◌≡◌, ◌≢◌, ◌++◌, ℕ, List, All, IsTrue, IfOk, MatchOption, codes};
ghost use Rattle.std.specs.Ordering.{nat_cmp};
ghost use Rattle.std.specs.Cmp.Lexicographic.{slice_cmp};
ghost use Rattle.std.specs.List.Sorted.{IsStrictlyIncreasing, IsStrictlySortedBy};
ghost use Rattle.ts_site.specs.Faults.{is_err_and};
ghost use Rattle.ts_site.specs.Outside.{IsHonest, KeepsCrash, OnlyReads};
ghost use Rattle.ts_model.specs.LayerText.{layer_text};
ghost use Rattle.ts_model.specs.Names.{IsLabelName};
ghost use Rattle.ts_replace.specs.Names.{IsLayerNumber};
ghost use Rattle.ts_replace.specs.ScanFail.{is_scan_fault};
ghost use Rattle.ts_replace.specs.Scanned.{Rise, AreThoseOf, AreNamedIn};

use crate::ScanFail;
use std::alloc::{AllocError, Global};
use ts_model::{LabelName, layer_number};
use ts_site::{Disk, FileName, Site};

/// What stands in a folder: the numbers of its layers and of its rollups, and its labels. Each list rises.
#[derive(Debug, Drop)]
pub struct Folder {
    pub layers: Vec<u32>,
    pub rollups: Vec<u32>,
    pub labels: Vec<LabelName>,
}

impl Folder {
    /// Lists a folder. Files of other names are left out.
    pub fn scan<W: Site>(alloc: Global, site: &mut W) -> Result<Folder, ScanFail>
        ensures rising { IfOk result (λ found. Rise found.layers.items found.rollups.items found.labels.items) }
        ensures numbers { IfOk result (λ found. All IsLayerNumber found.layers.items) }
        ensures rollup_numbers { IfOk result (λ found. All IsLayerNumber found.rollups.items) }
        ensures names { IsHonest (W.outside site.new)
            → IfOk result (λ found. AreThoseOf (W.outside site.old).folder found.layers.items found.rollups.items found.labels.items) }
        ensures crash { KeepsCrash (W.outside site.old) (W.outside site.new) }
        ensures reads { OnlyReads (is_err_and is_scan_fault result) (W.outside site.old) (W.outside site.new) }
    {
        let mut names = Vec::new(alloc);
        site.list(alloc, &mut names)?;
        let layers = numbers_in(alloc, &names, b".layer")?;
        let rollups = numbers_in(alloc, &names, b".rollup")?;
        let labels = labels_in(alloc, &names)?;
        Ok(Folder {
            layers,
            rollups,
            labels,
        })
    }
}

// The numbers whose text with this ending is a name of the list, rising.
fn numbers_in(alloc: Global, names: &[FileName], ending: &[u8]) -> Result<Vec<u32>, AllocError>
    ensures rising { IfOk result (λ numbers. IsStrictlyIncreasing numbers.items) }
    ensures named { IfOk result (λ numbers. AreNamedIn IsLayerNumber layer_text ending.now names.now numbers.items) }
{
    let mut numbers = Vec::new(alloc);
    for name in names {
        if let Some(number) = number_before(name.bytes(), ending) {
            numbers.push(number)?;
        }
    }
    numbers.sort_unstable();
    numbers.dedup();
    Ok(numbers)
}

// The labels whose files are names of the list, rising.
fn labels_in(alloc: Global, names: &[FileName]) -> Result<Vec<LabelName>, AllocError>
    ensures rising { IfOk result (λ labels. IsStrictlySortedBy (slice_cmp nat_cmp) labels.items) }
    ensures named { IfOk result (λ labels. AreNamedIn IsLabelName (λ name. name) (codes ".label") names.now labels.items) }
{
    let mut labels = Vec::new(alloc);
    for name in names {
        if let Some(label) = label_before(name.bytes(), b".label") {
            labels.push(label)?;
        }
    }
    labels.sort_unstable_by(|a, b| a.bytes().cmp(b.bytes()));
    labels.dedup_by(|a, b| a.bytes() == b.bytes());
    Ok(labels)
}

fn number_before(name: &[u8], ending: &[u8]) -> Option<u32>
    ensures { MatchOption result ((n : ℕ) → IsLayerNumber n → name.now ≢ layer_text n ++ ending.now)
        (λ n. IsLayerNumber n × (name.now ≡ layer_text n ++ ending.now)) }
{
    let number = layer_number(name_before(name, ending)?)?;
    if number == 0 { None } else { Some(number) }
}

fn label_before(name: &[u8], ending: &[u8]) -> Option<LabelName>
    ensures { MatchOption result ((label : List ℕ) → IsLabelName label → name.now ≢ label ++ ending.now)
        (λ label. IsLabelName label × (name.now ≡ label ++ ending.now)) }
{
    LabelName::of(name_before(name, ending)?)
}

// What stands before an ending.
fn name_before<'a>(name: &'a [u8], ending: &[u8]) -> Option<&'a [u8]>
    ensures { MatchOption result ((front : List ℕ) → name.now ≢ front ++ ending.now)
        (λ front. name.now ≡ front.now ++ ending.now) }
{
    name.strip_suffix(ending)
}
