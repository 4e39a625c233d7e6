//! Laws of the definitions, over all lists of bytes.

ghost use Rattle.std.specs.Prelude.{◌≡◌, ◌≢◌, ◌⊎◌, ℕ, true, List, ◌↔◌, Result, Ok, Err, IsErr};
ghost use Rattle.image_model.specs.declared.format.Format.{Format};
ghost use Rattle.image_model.specs.declared.format.Format.TheVariants.{Dti1, Dti2};
ghost use Rattle.image_model.specs.Image.{Image, IsImage, ImageOf, AreInBoth, has_permissions, format_of, spelling, image_bytes};
ghost use Rattle.image_model.specs.Reading.{IsBytes, image_of};

/// What is read from left to right is what the grammar relates to the bytes.
pub fn reads_exactly_images()
    ensures { (bytes : List ℕ) (i : Image) → IsBytes bytes → image_of bytes ≡ Ok i ↔ ImageOf bytes i }
{}

/// A fault is found exactly where the bytes are no image.
pub fn refuses_exactly_the_rest()
    ensures { (bytes : List ℕ) → IsBytes bytes → IsErr (image_of bytes) ↔ ((i : Image) → ImageOf bytes i → ⊥) }
{}

/// The grammar relates bytes to at most one image.
pub fn one_image()
    ensures { (bytes : List ℕ) (i j : Image) → ImageOf bytes i → ImageOf bytes j → i ≡ j }
{}

/// The spelling of an image in a format that has its permissions is read as that image, and so are the
/// bytes that are written.
pub fn read_again()
    ensures each { (format : Format) (i : Image) → IsImage i → has_permissions format i.segments ≡ true → image_of (spelling format i) ≡ Ok i }
    ensures written { (i : Image) → IsImage i → image_of (image_bytes i) ≡ Ok i }
{}

/// The format in which an image is written has its permissions. An image of permissions among 0, 2, 5 and 7
/// alone has two spellings, every other one has one.
pub fn spellings()
    ensures format { (i : Image) → has_permissions (format_of i) i.segments ≡ true }
    ensures two { (bytes : List ℕ) (i : Image) → IsImage i → AreInBoth i.segments → ImageOf bytes i ↔ (bytes ≡ spelling Dti1 i) ⊎ (bytes ≡ spelling Dti2 i) }
    ensures different { (i : Image) → spelling Dti1 i ≢ spelling Dti2 i }
    ensures one { (bytes : List ℕ) (i : Image) → IsImage i → (AreInBoth i.segments → ⊥) → ImageOf bytes i ↔ bytes ≡ spelling Dti2 i }
{}
