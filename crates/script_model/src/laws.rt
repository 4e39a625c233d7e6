//! Laws of the definitions, over all lists of bytes.

ghost use Rattle.std.specs.Prelude.{◌≡◌, ℕ, List, ◌↔◌, Ok, Err, IsErr};
ghost use Rattle.device_model.specs.Devices.{Devices};
ghost use Rattle.script_model.specs.Script.{Item, Says, ScriptOf, IsFirstRefused};
ghost use Rattle.script_model.specs.Reading.{script_of};

/// What is read line by line is what the grammar relates to the bytes.
pub fn reads_exactly_scripts()
    ensures { (bytes : List ℕ) (d : Devices) → script_of bytes ≡ Ok d ↔ ScriptOf bytes d }
{}

/// The line that is named is the first one that says nothing known.
pub fn names_the_first_refused_line()
    ensures { (bytes : List ℕ) (n : ℕ) → script_of bytes ≡ Err (record { line = n }) ↔ IsFirstRefused bytes n }
{}

/// A line is named exactly where the bytes are no script.
pub fn refuses_exactly_the_rest()
    ensures { (bytes : List ℕ) → IsErr (script_of bytes) ↔ ((d : Devices) → ScriptOf bytes d → ⊥) }
{}

/// A line says at most one thing.
pub fn one_item()
    ensures { (line : List ℕ) (i j : Item) → Says line i → Says line j → i ≡ j }
{}

/// The grammar relates bytes to at most one value.
pub fn one_script()
    ensures { (bytes : List ℕ) (d e : Devices) → ScriptOf bytes d → ScriptOf bytes e → d ≡ e }
{}
