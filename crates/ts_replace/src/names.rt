// The names of the store's files.
ghost use Rattle.std.specs.Prelude.{◌≡◌, ◌≢◌, ◌+◌, ◌≤◌, ◌++◌, length, take};
ghost use Rattle.ts_replace.specs.Names.{label_file_name, layer_name, rollup_name};
ghost use Rattle.ts_replace.specs.Replaced.{new_tmp};

use ts_model::{LabelName, layer_text};
use ts_site::FileName;

/// The most bytes of the name of a label's file.
const ROOM: usize = 206;

/// The name of a layer's file.
pub fn layer_file(number: u32) -> FileName
    ensures name { result ≡ layer_name number }
    ensures other { layer_name number ≢ new_tmp }
{
    let mut name = *b"00000000.layer";
    name[..8].copy_from_slice(&layer_text(number));
    FileName::of(&name).unwrap()
}

/// The name of a rollup's file.
pub fn rollup_file(number: u32) -> FileName
    ensures { result ≡ rollup_name number }
{
    let mut name = *b"00000000.rollup";
    name[..8].copy_from_slice(&layer_text(number));
    FileName::of(&name).unwrap()
}

/// The name of a label's file.
pub fn label_file(label: &LabelName) -> FileName
    ensures { result ≡ label_file_name label.now }
{
    let bytes = label.bytes();
    let mut name = [0; ROOM];
    put(&mut name, 0, bytes);
    put(&mut name, bytes.len(), b".label");
    FileName::of(&name[..bytes.len() + 6]).unwrap()
}

/// Puts bytes at a place, behind those that stand before it.
fn put(name: &mut [u8; ROOM], place: usize, bytes: &[u8])
    requires { place + length bytes.now ≤ 206 }
    ensures { take (place + length bytes.now) name.new ≡ take place name.old ++ bytes.now }
{
    name[place..place + bytes.len()].copy_from_slice(bytes);
}
