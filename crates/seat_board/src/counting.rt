ghost use Rattle.std.specs.Prelude.{◌≡◌, ◌<◌, ◌==◌, ℕ, EachIndex, length, slice_index};
ghost use Rattle.std.specs.List.{All, count_by};
ghost use Rattle.seat_board.specs.declared.seat_turn.SeatTurn.{SeatTurn as TurnValue};

use crate::seat_turn::SeatTurn;

/// Counts each of these turns at the number of its seat, from zeros on.
pub(crate) fn count_turns(counts: &mut [usize], turns: &[SeatTurn])
    requires none { All (λ (n : ℕ). n ≡ 0) counts.old }
    requires seats { All (λ (t : TurnValue). t.seat < length counts.old) turns.now }
    ensures len { length counts.new ≡ length counts.old }
    ensures each { EachIndex counts.new (λ n. slice_index counts.new n ≡ count_by (λ (t : TurnValue). t.seat == n) turns.now) }
{
    for turn in turns {
        counts[turn.seat as usize] += 1;
    }
}
