ghost use Rattle.std.specs.Prelude.{◌≡◌, ◌≢◌, ℕ, ◌<◌, IfSome, IfNone};
ghost use Rattle.ts_model.specs.LayerText.{layer_text};
ghost use Rattle.ts_model.specs.Limits.{number_limit};

/// The number of a layer as 8 lower-case hexadecimal digits.
pub fn layer_text(number: u32) -> [u8; 8]
    ensures { result ≡ layer_text number }
{
    let mut text = [0; 8];
    let _ = hex::encode_to_slice(number.to_be_bytes(), &mut text);
    text
}

/// The number whose text this is, and `None` exactly where the bytes are not 8 lower-case hexadecimal digits.
pub fn layer_number(bytes: &[u8]) -> Option<u32>
    ensures value { IfSome result (λ n. layer_text n ≡ bytes.now) }
    ensures none { IfNone result ((n : ℕ) → n < number_limit → layer_text n ≢ bytes.now) }
{
    let mut bytes_of = [0; 4];
    if hex::decode_to_slice(bytes, &mut bytes_of).is_err() {
        return None;
    }
    let number = u32::from_be_bytes(bytes_of);
    if layer_text(number).as_slice() == bytes {
        Some(number)
    } else {
        None
    }
}
