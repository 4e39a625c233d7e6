//! Laws of the definitions, over all texts.

ghost use Rattle.std.specs.Prelude.{◌≡◌, ℕ, List, Some, []};
ghost use Rattle.json.specs.Json.{document};
ghost use Rattle.explain_lines.specs.Names.{named};
ghost use Rattle.explain_lines.specs.Objects.{json_text, json_value};

/// The text of the array is JSON, and reads as that array.
pub fn json_reads_back()
    ensures { (text : List ℕ) → document (json_text text) ≡ Some (json_value text) }
{}

/// Where no address has a name, the text stays as it is.
pub fn stays_without_symbols()
    ensures { (text : List ℕ) → named [] text ≡ text }
{}
