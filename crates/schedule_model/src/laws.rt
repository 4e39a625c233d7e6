//! Laws of the definitions, over all lists of bytes.

ghost use Rattle.std.specs.Prelude.{◌≡◌, ℕ, List, ◌↔◌, Ok, Err, IsErr};
ghost use Rattle.schedule_model.specs.Schedule.{Item, Says, ScheduleOf, IsFirstRefused};
ghost use Rattle.schedule_model.specs.Reading.{schedule_of};

/// What is read line by line is what the grammar relates to the bytes.
pub fn reads_exactly_schedules()
    ensures { (bytes : List ℕ) (paths : List (List ℕ)) → schedule_of bytes ≡ Ok paths ↔ ScheduleOf bytes paths }
{}

/// The line that is named is the first one that says nothing known.
pub fn names_the_first_refused_line()
    ensures { (bytes : List ℕ) (n : ℕ) → schedule_of bytes ≡ Err (record { line = n }) ↔ IsFirstRefused bytes n }
{}

/// A line is named exactly where the bytes are no schedule.
pub fn refuses_exactly_the_rest()
    ensures { (bytes : List ℕ) → IsErr (schedule_of bytes) ↔ ((paths : List (List ℕ)) → ScheduleOf bytes paths → ⊥) }
{}

/// A line says at most one thing.
pub fn one_item()
    ensures { (line : List ℕ) (i j : Item) → Says line i → Says line j → i ≡ j }
{}

/// The grammar relates bytes to at most one list of paths.
pub fn one_schedule()
    ensures { (bytes : List ℕ) (p q : List (List ℕ)) → ScheduleOf bytes p → ScheduleOf bytes q → p ≡ q }
{}
