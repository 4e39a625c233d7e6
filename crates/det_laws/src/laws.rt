ghost use Rattle.std.specs.Prelude.{◌≡◌, ◌≢◌, ◌⊎◌, ℕ, suc, ◌+◌, ◌-◌, ◌<◌, Some, List, ◌∷◌, ◌++◌, length, Bool, true, false};
ghost use Rattle.std.specs.List.{flat_map};
ghost use Rattle.call_model.specs.Limits.{greatest_depth};
ghost use Rattle.space_model.specs.Space.{Space, Top, top_of, is_settled};
ghost use Rattle.space_model.specs.Path.{at, with_top};
ghost use Rattle.space_model.specs.Event.{Follows};
ghost use Rattle.space_model.specs.PathOrder.{IsBefore, ArePaths};
ghost use Rattle.space_model.specs.Sound.{IsSound};
ghost use Rattle.space_model.specs.Meeting.{awaits};
ghost use Rattle.call_model.specs.declared.Call.{Call};
ghost use Rattle.run_model.specs.Demand.{settle_tree};
ghost use Rattle.run_model.specs.Schedule.{call_at};
ghost use Rattle.report_model.specs.Report.{console_of, report};
ghost use Rattle.det_laws.specs.Leads.{in_a_row};
ghost use Rattle.det_laws.specs.Near.{IsNear, IsOnWay};
ghost use Rattle.det_laws.specs.Tops.{top_at};
ghost use Rattle.det_laws.specs.Tree.{MayHappen, MayAllHappen, NoneMayHappen, after, after_all, effective_steps, events_left, IsPrefix, line_at};

/// Of two different events that may happen in a tree, each may still happen after the other, and both orders lead to one tree.
pub fn commutation()
    ensures stays_enabled { (s : Space) (p q : List ℕ) → p ≢ q → MayHappen p s → MayHappen q s → MayHappen p (after q s) }
    ensures one_tree { (s : Space) (p q : List ℕ) → p ≢ q → MayHappen p s → MayHappen q s → after p (after q s) ≡ after q (after p s) }
{}

/// What a sound tree settles to after any schedule is what it settles to before.
pub fn confluence()
    ensures { (s : Space) (ps : List (List ℕ)) → IsSound s → settle_tree (after_all ps s) ≡ settle_tree s }
{}

/// In a sound tree that is not settled some event may happen, and in a settled one none may.
pub fn never_stuck()
    ensures goes_on { (s : Space) → IsSound s → is_settled s ≡ false → (p : List ℕ) × MayHappen p s }
    ensures rests { (s : Space) (p : List ℕ) → is_settled s ≡ true → MayHappen p s → ⊥ }
{}

/// A sound tree is sound after every schedule.
pub fn stays_sound()
    ensures { (s : Space) (ps : List (List ℕ)) → IsSound s → IsSound (after_all ps s) }
{}

/// Each event that may happen in a sound tree is one of those that are left: after it there is one fewer. So of every schedule the events that
/// happen, and those that are left after it, are as many as those that are left before it. All schedules after which no event may
/// happen have as many events that happen, and lead to one tree, whatever paths at which nothing may happen stand among them; where each path may
/// happen in its turn, they are as long as one another.
pub fn one_length()
    ensures one_fewer { (s : Space) (p : List ℕ) → IsSound s → MayHappen p s → events_left s ≡ suc (events_left (after p s)) }
    ensures counted { (s : Space) (ps : List (List ℕ)) → IsSound s → effective_steps ps s + events_left (after_all ps s) ≡ events_left s }
    ensures as_many { (s : Space) (ps : List (List ℕ)) → IsSound s → NoneMayHappen (after_all ps s) → effective_steps ps s ≡ events_left s }
    ensures as_long { (s : Space) (ps : List (List ℕ)) → IsSound s → MayAllHappen ps s → NoneMayHappen (after_all ps s) → length ps ≡ events_left s }
    ensures one_end { (s : Space) (ps : List (List ℕ)) → IsSound s → NoneMayHappen (after_all ps s) → after_all ps s ≡ settle_tree s }
{}

/// What the root of a sound tree has written to its console after any schedule is the beginning of what it has written when the tree is settled.
pub fn console_prefix()
    ensures { (s : Space) (ps : List (List ℕ)) → IsSound s → IsPrefix (console_of (after_all ps s)) (console_of (settle_tree s)) }
{}

/// The order of paths is a strict total order: none comes before itself, what comes before a path comes before those behind that one as well, and of
/// two paths one comes first. A path comes before each that goes on from it, and of two others the first number that differs decides. The paths of a tree
/// are one list in this order.
pub fn path_order()
    ensures never_itself { (p : List ℕ) → IsBefore p p → ⊥ }
    ensures passes_on { (p q r : List ℕ) → IsBefore p q → IsBefore q r → IsBefore p r }
    ensures one_first { (p q : List ℕ) → p ≢ q → IsBefore p q ⊎ IsBefore q p }
    ensures beginning_first { (p q : List ℕ) (n : ℕ) → IsBefore p (p ++ n ∷ q) }
    ensures by_number { (r p q : List ℕ) (n m : ℕ) → n < m → IsBefore (r ++ n ∷ p) (r ++ m ∷ q) }
    ensures one_list { (ps qs : List (List ℕ)) (s : Space) → ArePaths ps s → ArePaths qs s → ps ≡ qs }
{}

/// The report of a sound tree has one line for each path at which a space stands, in the order of paths.
pub fn report_order()
    ensures { (digest : Bool) (s : Space) → IsSound s → (ps : List (List ℕ)) × ArePaths ps s × (report digest s ≡ flat_map (line_at digest s) ps) }
{}

/// Local events of the space at a path, one after the other, are steps of a schedule, each of which may happen in its turn. They give that space its
/// last top, and change nothing else.
pub fn local_events()
    ensures may { (s c : Space) (p : List ℕ) (n : ℕ) (t : Top) → at p s ≡ Some c → Follows (greatest_depth - length p) n (top_of c) t → MayAllHappen (in_a_row n p) s }
    ensures last { (s c : Space) (p : List ℕ) (n : ℕ) (t : Top) → at p s ≡ Some c → Follows (greatest_depth - length p) n (top_of c) t → after_all (in_a_row n p) s ≡ with_top p t s }
{}

/// Tops put at two different paths pass one another, and each leaves the top at the other path as it was.
pub fn tops_at_different_paths()
    ensures one_tree { (s : Space) (p q : List ℕ) (t u : Top) → p ≢ q → with_top p t (with_top q u s) ≡ with_top q u (with_top p t s) }
    ensures other_stays { (s : Space) (p q : List ℕ) (t : Top) → p ≢ q → top_at p (with_top q t s) ≡ top_at p s }
{}

/// After a list of events each of which may happen in its turn there are as many fewer left in a sound tree.
pub fn as_many_fewer()
    ensures { (s : Space) (ps : List (List ℕ)) → IsSound s → MayAllHappen ps s → events_left s ≡ length ps + events_left (after_all ps s) }
{}

/// A top that is put at a path leaves each space that does not stand on the way to that path, with all below it.
pub fn what_a_top_leaves()
    ensures { (s : Space) (p q : List ℕ) (t : Top) → (IsOnWay p q → ⊥) → at p (with_top q t s) ≡ at p s }
{}

/// A call of a sound tree that meets its children leaves the top of each other space that may go on. Where an event may happen after it, the
/// space there is what it was before, with all below it; or it is the caller, or stands above the caller, or is a child that the call awaits.
pub fn what_a_meeting_leaves()
    ensures tops { (s : Space) (p q : List ℕ) (k : Call) → IsSound s → p ≢ q → MayHappen p s → call_at q greatest_depth s ≡ Some k → top_at p (after q s) ≡ top_at p s }
    ensures near { (s : Space) (p q : List ℕ) (k : Call) → IsSound s → call_at q greatest_depth s ≡ Some k → MayHappen p (after q s) → (at p (after q s) ≡ at p s) ⊎ IsNear (awaits k) p q }
{}
