ghost use Rattle.std.specs.Prelude.{◌≡◌, ◌↔◌, ℕ, List, ◌++◌, Some};
ghost use Rattle.std.specs.Option.{option_map};

/// The text after a prefix. None exactly where the text does not begin with it.
pub fn after_prefix<'a>(text: &'a str, prefix: &str) -> Option<&'a str>
    ensures { (rest : List ℕ) → (text.now ≡ prefix.now ++ rest) ↔ (option_map (λ after. after.now) result ≡ Some rest) }
{
    text.strip_prefix(prefix)
}
