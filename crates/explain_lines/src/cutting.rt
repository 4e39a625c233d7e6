ghost use Rattle.std.specs.Prelude.{◌≡◌, ◌<◌, ◌∷◌, [], length, IfSome};
ghost use Rattle.std.specs.List.{after_first, before_first};
ghost use Rattle.std.specs.Option.{option_copied, option_map_or, unwrap_or};
ghost use Rattle.explain_lines.specs.Pieces.{is, pieces};

/// What stands before the first byte that is the separator, and what stands behind it, where there is one.
pub(crate) fn cut(separator: u8, text: &[u8]) -> (&[u8], Option<&[u8]>)
    ensures before { result.0.now ≡ before_first (is separator) text.now }
    ensures after { unwrap_or (option_copied result.1) [] ≡ after_first (is separator) text.now }
    ensures pieces { pieces separator text.now ≡ result.0.now ∷ option_map_or (pieces separator) (option_copied result.1) [] }
    ensures shorter { IfSome result.1 (λ rest. length rest.now < length text.now) }
{
    for (at, byte) in text.iter().enumerate() {
        if *byte == separator {
            return (&text[..at], Some(&text[at + 1..]));
        }
    }
    (text, None)
}
