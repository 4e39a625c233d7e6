//! What reading a text from left to right gives, over all texts: the image that the text is a source of, or
//! the fault with which it is refused.

ghost use Rattle.std.specs.Prelude.{◌≡◌, ℕ, List, ◌↔◌, ◌⊎◌, Ok, Err};
ghost use Rattle.image_model.specs.Image.{Image};
ghost use Rattle.source_model.specs.Reading.{source_of};
ghost use Rattle.source_model.specs.Source.{SourceOf, IsRefused};
ghost use Rattle.source_model.specs.declared.error.AsmError.{AsmError as ErrorData};

/// An image is read exactly of its sources.
pub fn reads_exactly_sources()
    ensures { (text : List ℕ) (i : Image) → source_of text ≡ Ok i ↔ SourceOf text i }
{}

/// A fault is read exactly of the texts that are refused with it.
pub fn refuses_exactly_the_rest()
    ensures { (text : List ℕ) (e : ErrorData) → source_of text ≡ Err e ↔ IsRefused text e }
{}

/// Every text is a source of an image, or is refused with a fault.
pub fn answers_every_text()
    ensures { (text : List ℕ) → ((i : Image) × SourceOf text i) ⊎ ((e : ErrorData) × IsRefused text e) }
{}

/// A text is a source of at most one image.
pub fn one_image()
    ensures { (text : List ℕ) (i j : Image) → SourceOf text i → SourceOf text j → i ≡ j }
{}

/// A text is refused with at most one fault.
pub fn one_fault()
    ensures { (text : List ℕ) (d e : ErrorData) → IsRefused text d → IsRefused text e → d ≡ e }
{}
