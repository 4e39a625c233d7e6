ghost use Rattle.std.specs.Prelude.{◌≡◌, ℕ, List, ◌∷◌, ◌++◌, length};
ghost use Rattle.space_model.specs.Space.{Space};
ghost use Rattle.det_laws.specs.Near.{IsOnWay};
ghost use Rattle.det_laws.specs.Tops.{top_at};
ghost use Rattle.det_laws.specs.Tree.{MayHappen, MayAllHappen, NoneMayHappen, after, after_all};
ghost use Rattle.space_model.specs.Sound.{IsSound};
ghost use Rattle.event_laws.specs.OwnEvents.{OwnEvent, IsOwnEvent, IsEntry, own_events};

/// The own event of a number at a path is one and the same in every schedule in which it happens: the top before it, what its call sees of the
/// children that it awaits, and the top after it.
pub fn one_meaning()
    ensures { (s : Space) (ps qs : List (List ℕ)) (p : List ℕ) (k : ℕ) (a b : OwnEvent) → IsOwnEvent ps s p k a → IsOwnEvent qs s p k b → a ≡ b }
{}

/// What happens in some schedule happens in each after which no event may happen. So all of these have the same own events at each path.
pub fn ended_schedules()
    ensures has_it { (s : Space) (ps qs : List (List ℕ)) (p : List ℕ) (k : ℕ) (e : OwnEvent) → NoneMayHappen (after_all ps s) → IsOwnEvent qs s p k e → IsOwnEvent ps s p k e }
    ensures alike { (s : Space) (ps qs : List (List ℕ)) (p : List ℕ) → NoneMayHappen (after_all ps s) → NoneMayHappen (after_all qs s) → own_events p ps s ≡ own_events p qs s }
{}

/// Every sound tree has a schedule that ends: each of its events may happen in its turn, and after them none may. So what is said of every schedule that has ended is said of one
/// at least.
pub fn some_schedule_ends()
    ensures { (s : Space) → IsSound s → (ps : List (List ℕ)) × MayAllHappen ps s × NoneMayHappen (after_all ps s) }
{}

/// An own event of a schedule is an entry that is its path, at which an event may happen: its number is how many own events there are before the
/// entry, and its tops are those at the path just before and just after. And each such entry is an own event.
pub fn entries()
    ensures is_entry { (s : Space) (ps : List (List ℕ)) (p : List ℕ) (k : ℕ) (e : OwnEvent) → IsOwnEvent ps s p k e → IsEntry ps s p k e }
    ensures is_own { (s : Space) (earlier later : List (List ℕ)) (p : List ℕ) → MayHappen p (after_all earlier s) → (e : OwnEvent) × IsOwnEvent (earlier ++ p ∷ later) s p (length (own_events p earlier s)) e }
{}

/// Between own events of a space its top changes by the calls of spaces above it alone: an event leaves the top at each path at which it does not
/// stand, and above which it does not stand either.
pub fn tops_in_between()
    ensures { (s : Space) (p q : List ℕ) → (IsOnWay q p → ⊥) → top_at p (after q s) ≡ top_at p s }
{}
