//! Laws of the definitions, over all texts.

ghost use Rattle.std.specs.Prelude.{◌≡◌, ℕ, List, ◌↔◌, Some};
ghost use Rattle.source_model.specs.Bytes.{lines_of};
ghost use Rattle.source_model.specs.Definitions.{IsFirstDefinition};
ghost use Rattle.source_model.specs.Layout.{definitions, start};
ghost use Rattle.source_model.specs.declared.statement.Definition.{Definition as DefinitionData};

/// A label is worth the address that is reached before the first line that defines it.
pub fn labels_are_addresses()
    ensures { (text name : List ℕ) (d : DefinitionData) → definitions text name ≡ Some d ↔ IsFirstDefinition 1 start (lines_of text) name d }
{}
