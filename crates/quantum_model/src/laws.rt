//! Laws of the definitions, over all memories.

ghost use Rattle.std.specs.Prelude.{◌≡◌, ◌≤◌, ◌<◌, ◌++◌, ◌∷◌, ℕ, List, true};
ghost use Rattle.memory_model.specs.Memory.{Memory, byte_at, permission_at};
ghost use Rattle.space_model.specs.Commit.{Written, commits, changes, shared_end, NoneChanges};

/// Of the threads that changed a shared byte the last one decides, and where none did the byte stays.
pub fn last_change_stays()
    ensures last { (p : Memory) (before after : List Written) (w : Written) (a : ℕ) → a < shared_end → changes a w ≡ true → NoneChanges a after → byte_at (commits p (before ++ w ∷ after)) a ≡ byte_at w.memory a }
    ensures none { (p : Memory) (ws : List Written) (a : ℕ) → NoneChanges a ws → byte_at (commits p ws) a ≡ byte_at p a }
{}

/// Bytes that are not shared stay, and all permissions.
pub fn others_stay()
    ensures bytes { (p : Memory) (ws : List Written) (a : ℕ) → shared_end ≤ a → byte_at (commits p ws) a ≡ byte_at p a }
    ensures permissions { (p : Memory) (ws : List Written) (page : ℕ) → permission_at (commits p ws) page ≡ permission_at p page }
{}

/// The threads of a list may be committed in parts.
pub fn commits_in_parts()
    ensures { (p : Memory) (before after : List Written) → commits p (before ++ after) ≡ commits (commits p before) after }
{}
