//! Laws of callers and their threads, at any depth.

ghost use Rattle.std.specs.Prelude.{◌≡◌, ℕ, ◌+◌, ◌≤◌, ◌<◌, List, [], Some, true};
ghost use Rattle.call_model.specs.Limits.{greatest_depth};
ghost use Rattle.call_model.specs.declared.Call.TheVariants.{Qstart, Qcommit};
ghost use Rattle.quantum_model.specs.Rows.{threads_in};
ghost use Rattle.space_model.specs.Commit.{commits};
ghost use Rattle.space_model.specs.Quanta.{waits, writings};
ghost use Rattle.space_model.specs.Space.{Space, children_of, find};
ghost use Rattle.space_model.specs.Path.{at};
ghost use Rattle.run_model.specs.Schedule.{call_at, step};
ghost use Rattle.det_laws.specs.Tree.{after};
ghost use Rattle.quantum_laws.specs.Around.{HasSnapshotAt, LeadsAround};
ghost use Rattle.quantum_laws.specs.Between.{HasSnapshot, LeadsBetween, memory_of, status_of};

/// Each thread that a start gives a quantum to has the caller's bytes and permissions of the shared pages as its snapshot: right behind the start, and
/// after any events of the caller's threads, of all spaces below them, and of the caller itself, as long as none of these is a call of the caller
/// that meets children.
pub fn snapshots_stay()
    ensures { (levels first count quantum n : ℕ) (s t c : Space) (ps : List (List ℕ)) → call_at [] levels s ≡ Some (Qstart first count quantum)
        → first ≤ n → n < first + count → find n (children_of s) ≡ Some c → waits (status_of c) ≡ true → LeadsBetween levels ps (step [] levels s) t
        → HasSnapshot n (memory_of s) t }
{}

/// A commit leaves in the caller's memory what stood there, with what each thread in the row that has a snapshot wrote since, one after the other by
/// rising numbers, whatever came before.
pub fn commits_what_was_written()
    ensures { (levels first count : ℕ) (s : Space) → call_at [] levels s ≡ Some (Qcommit first count)
        → memory_of (step [] levels s) ≡ commits (memory_of s) (writings (threads_in first count (children_of s))) }
{}

/// The same of a caller at any path of a whole tree: its threads keep these snapshots, whatever happens elsewhere, as long as no event in between is a call of the caller, or of a
/// space above it, that meets children.
pub fn snapshots_stay_anywhere()
    ensures { (first count quantum n : ℕ) (p : List ℕ) (s t c k : Space) (ps : List (List ℕ)) → at p s ≡ Some c → call_at p greatest_depth s ≡ Some (Qstart first count quantum)
        → first ≤ n → n < first + count → find n (children_of c) ≡ Some k → waits (status_of k) ≡ true → LeadsAround greatest_depth p ps (after p s) t
        → HasSnapshotAt p n (memory_of c) t }
{}

/// And a commit of a caller at any path of a whole tree leaves in its memory what its threads wrote.
pub fn commits_anywhere()
    ensures { (first count : ℕ) (p : List ℕ) (s c : Space) → at p s ≡ Some c → call_at p greatest_depth s ≡ Some (Qcommit first count)
        → (d : Space) × (at p (after p s) ≡ Some d) × (memory_of d ≡ commits (memory_of c) (writings (threads_in first count (children_of c)))) }
{}
