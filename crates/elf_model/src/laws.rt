//! Laws of the definitions, over all lists of bytes and all loads.

ghost use Rattle.std.specs.Prelude.{◌≡◌, ◌≤◌, ◌⊎◌, ◌↔◌, ℕ, List, ◌++◌, ◌∷◌, [], length, Ok, Err};
ghost use Rattle.image_model.specs.Image.{Image, IsImage};
ghost use Rattle.image_model.specs.Reading.{IsBytes};
ghost use Rattle.device_model.specs.Devices.{Devices};
ghost use Rattle.space_model.specs.Space.{top_of};
ghost use Rattle.run_model.specs.Boot.{boot};
ghost use Rattle.elf_model.specs.declared.error.ElfError.{ElfError};
ghost use Rattle.elf_model.specs.Loads.{Load, AreLoads, parts_of, stack, stack_base};
ghost use Rattle.elf_model.specs.Pages.{Run, RunsOf, HasMemory};
ghost use Rattle.elf_model.specs.Needs.{IsFirstFault, needs, greatest_loads};
ghost use Rattle.elf_model.specs.Elf.{ElfOf};
ghost use Rattle.elf_model.specs.Reading.{elf_of};

/// What is read of a file is the image that it states.
pub fn reads_exactly_executables()
    ensures { (bytes : List ℕ) (i : Image) → elf_of bytes ≡ Ok i ↔ ElfOf bytes i }
{}

/// A file is refused exactly for the first need that it does not meet. Each file states an image or has a first fault, and none both.
pub fn refuses_exactly_the_rest()
    ensures exact { (bytes : List ℕ) (e : ElfError) → elf_of bytes ≡ Err e ↔ IsFirstFault (needs bytes) e }
    ensures either { (bytes : List ℕ) → ((i : Image) × ElfOf bytes i) ⊎ ((e : ElfError) × IsFirstFault (needs bytes) e) }
    ensures never_both { (bytes : List ℕ) (i : Image) (e : ElfError) → ElfOf bytes i → IsFirstFault (needs bytes) e → ⊥ }
{}

/// A file states at most one image.
pub fn one_image()
    ensures { (bytes : List ℕ) (i j : Image) → ElfOf bytes i → ElfOf bytes j → i ≡ j }
{}

/// A file has at most one first fault.
pub fn one_fault()
    ensures { (bytes : List ℕ) (d e : ElfError) → IsFirstFault (needs bytes) d → IsFirstFault (needs bytes) e → d ≡ e }
{}

/// At most 32 loads, one above the other below the stack, and the stack make at most 64 maximal runs of pages.
pub fn few_segments()
    ensures { (ls : List Load) (rs : List Run) → AreLoads 0 stack_base ls → length ls ≤ greatest_loads → RunsOf (ls ++ stack ∷ []) rs → length rs ≤ 64 }
{}

/// What a file states keeps the rules of images: its segments are few, each begins in a page above the last page of the one before, and each has
/// bytes, that end at 2^32 or below it, and a permission.
pub fn is_image()
    ensures { (bytes : List ℕ) (i : Image) → IsBytes bytes → ElfOf bytes i → IsImage i }
{}

/// A root that boots from the image of a file has the memory that the file's loads and the stack state, whatever its devices and its fuel.
pub fn boots_to_its_memory()
    ensures { (bytes : List ℕ) (i : Image) (devices : Devices) (fuel : ℕ) → ElfOf bytes i → HasMemory (parts_of bytes) (top_of (boot i devices fuel)).memory }
{}
