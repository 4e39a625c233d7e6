ghost use Rattle.std.specs.Prelude.{◌≡◌, IfOk, None, false, true, vec_len};
ghost use Rattle.std.specs.List.{All};
ghost use Rattle.space_model.specs.Sound.{IsSound};
ghost use Rattle.pool_tests.specs.Played.{IsPlayed};
ghost use Rattle.seat_board.specs.Passes.{known};
ghost use Rattle.seat_board.specs.Seats.{IsDoneOf};
ghost use Rattle.seat_board.specs.Workers.{AreReady, Follows, IsFirst, IsReady, IsSame};

use crate::histories::leads;
use crate::programs::{LATE_FORK, booted, booted_from};
use board::{Done, Job, work};
use det_core::Entry;
use seat_board::{Pass, SeatBoard, SeatClosed, SeatTurn, gather, seats_beside};
use space_step::DecodeCache;
use space_tree::{Path, Space};
use std::alloc::{AllocError, Global};
use std::process::Abort;
use std::sync::Wait;
use std::test::*;
use worker_pool::Turn;

// A turn of a seat, which hands in what came of its job, if it has one.
#[tactic(auto, using(seat_board::proofs::Working::turn_same, seat_board::proofs::Working::turn_follows))]
fn turn<R: Wait + Abort>(
    rt: &R,
    board: &SeatBoard,
    pass: &mut Pass,
    done: Option<Done>,
) -> Turn<Job>
    requires pass { pass.old.pass.seat.table_id ≡ board.now.lock.table.shared.table_id }
    requires done { IsDoneOf (known pass.old).job done }
    ensures pass { pass.new.pass.seat.table_id ≡ pass.old.pass.seat.table_id }
    ensures same { IsSame (known pass.old) (known pass.new) }
    ensures turn { Follows result (known pass.new) }
{
    board.turn(rt, pass, done, false).expect(rt, "memory")
}

// A board on one node over a tree, with its first seat.
fn begun(rt: &impl Abort, alloc: Global, tree: Space) -> (SeatBoard, Pass)
    requires { IsSound tree }
    ensures first { IsFirst result.0.lock.table.shared.table_id 0 result.1 }
    ensures given { (known result.1).given ≡ 1 }
{
    SeatBoard::begin(alloc, tree, 1, None).expect(rt, "memory")
}

// What one turn of a seat answered.
#[derive(Clone, Copy, Debug, PartialEq, Eq)]
enum Answer {
    Job,
    Met,
    Rest,
    Over,
}

fn answer_of(turn: &Turn<Job>) -> Answer {
    match turn {
        Turn::Job(_) => Answer::Job,
        Turn::Met => Answer::Met,
        Turn::Rest => Answer::Rest,
        Turn::Over => Answer::Over,
    }
}

// A seat that is worked at by hand: what came of its job, if it has one, whether it was told that the board is over, and how many turns it has had.
#[derive(Drop)]
struct Player {
    pass: Pass,
    done: Option<Done>,
    over: bool,
    turns: usize,
}

// A turn of a player, and its job, if the turn hands out one.
#[tactic(auto, using(seat_board::proofs::Working::works_at, seat_board::proofs::Working::idle_none))]
fn play<R: Wait + Abort>(
    rt: &R,
    board: &SeatBoard,
    cache: &mut DecodeCache,
    player: Player,
) -> (Player, Answer)
    requires { IsPlayed board.now.lock.table.shared.table_id player.pass player.done player.over }
    ensures played { IsPlayed board.now.lock.table.shared.table_id result.0.pass result.0.done result.0.over }
    ensures same { IsSame (known player.pass) (known result.0.pass) }
{
    let Player {
        pass,
        done,
        turns,
        ..
    } = player;
    let mut pass = pass;
    let turn = turn(rt, board, &mut pass, done);
    let answer = answer_of(&turn);
    let turns = turns.saturating_add(1);
    let (done, over) = match turn {
        Turn::Job(job) => (Some(work(cache, job).expect(rt, "memory")), false),
        Turn::Met | Turn::Rest => (None, false),
        Turn::Over => (None, true),
    };
    let player = Player {
        pass,
        done,
        over,
        turns,
    };
    (player, answer)
}

// A player at a seat that has no job.
fn player_at(pass: Pass) -> Player
    ensures pass { result.pass ≡ pass }
    ensures none { result.done ≡ None }
    ensures goes { result.over ≡ false }
{
    Player {
        pass,
        done: None,
        over: false,
        turns: 0,
    }
}

// The seat of a player that has no job.
#[tactic(auto, using(crate::proofs::Idle::idle_of))]
fn idle(rt: &impl Abort, player: Player) -> Pass
    requires { IsDoneOf (known player.pass).job player.done }
    ensures pass { result ≡ player.pass }
    ensures idle { (known result).job ≡ None }
{
    let Player { pass, done, .. } = player;
    match done {
        None => pass,
        Some(_) => panic!(rt; "a job that is out"),
    }
}

// The entry of so many events of the root.
fn root_ran(events: u32) -> Entry {
    Entry::Ran {
        path: Path::new(),
        events,
    }
}

// A first seat and another take three turns, the first two of them. Answers what these were told.
fn take_three<R: Wait + Abort>(
    rt: &R,
    alloc: Global,
    board: &SeatBoard,
    first: Pass,
    other: Pass,
) -> (Pass, Pass, [Answer; 3])
    requires first { IsFirst board.now.lock.table.shared.table_id 1 first }
    requires other { IsReady board.now.lock.table.shared.table_id other }
    ensures first { IsFirst board.now.lock.table.shared.table_id 1 result.0 }
    ensures other { IsReady board.now.lock.table.shared.table_id result.1 }
{
    let mut cache = DecodeCache::new(alloc).expect(rt, "memory");
    let (first, begins) = play(rt, board, &mut cache, player_at(first));
    let (other, waits) = play(rt, board, &mut cache, player_at(other));
    let (first, hands_in) = play(rt, board, &mut cache, first);
    let first = idle(rt, first);
    let other = idle(rt, other);
    (first, other, [begins, waits, hands_in])
}

// The first seat takes in the only other one, and closes the board.
#[tactic(auto, using(seat_board::proofs::Working::one_fewer))]
fn close_two(board: SeatBoard, first: Pass, other: Pass) -> SeatClosed
    requires first { IsFirst board.lock.table.shared.table_id 1 first }
    requires other { IsReady board.lock.table.shared.table_id other }
{
    let mut first = first;
    board.join(&mut first, other);
    board.close(first)
}

#[test]
fn two_seats_take_their_turns(rt: HostRuntime) {
    let (board, mut first) = begun(&rt, rt.alloc(), booted(&rt, rt.alloc(), LATE_FORK));
    let other = board.split(&mut first);
    let (first, other, told) = take_three(&rt, rt.alloc(), &board, first, other);
    assert!(rt; told == [Answer::Job, Answer::Rest, Answer::Met]);
    let closed = close_two(board, first, other);
    let log = [
        SeatTurn {
            seat: 0,
            entries: 1,
        },
        SeatTurn {
            seat: 1,
            entries: 0,
        },
        SeatTurn {
            seat: 0,
            entries: 2,
        },
    ];
    assert!(rt; closed.turns.as_slice() == log.as_slice());
    let history = [
        root_ran(128),
        root_ran(173),
        Entry::Met { path: Path::new() },
    ];
    assert!(rt; closed.closed.history.as_slice() == history.as_slice());
}

// The next of a row of numbers.
fn next(random: &mut u32) -> u32 {
    *random = random.wrapping_mul(1_664_525).wrapping_add(1_013_904_223);
    *random >> 16
}

// A player has a turn, or leaves it to others: by chance.
fn play_by_chance<R: Wait + Abort>(
    rt: &R,
    board: &SeatBoard,
    cache: &mut DecodeCache,
    player: Player,
    random: &mut u32,
) -> Player
    requires { IsPlayed board.now.lock.table.shared.table_id player.pass player.done player.over }
    ensures played { IsPlayed board.now.lock.table.shared.table_id result.pass result.done result.over }
    ensures same { IsSame (known player.pass) (known result.pass) }
{
    if player.over || next(random) % 2 == 0 {
        return player;
    }
    let (player, _) = play(rt, board, cache, player);
    player
}

// Each of these players has a turn or not.
fn play_each<R: Wait + Abort>(
    rt: &R,
    alloc: Global,
    board: &SeatBoard,
    cache: &mut DecodeCache,
    players: Vec<Player>,
    random: &mut u32,
) -> Vec<Player>
    requires { All (λ p. IsPlayed board.now.lock.table.shared.table_id p.pass p.done p.over) players.items }
    ensures played { All (λ p. IsPlayed board.now.lock.table.shared.table_id p.pass p.done p.over) result.items }
    ensures len { vec_len result ≡ vec_len players }
{
    let mut left = players;
    let mut played = Vec::new(alloc);
    while let Some(player) = left.pop() {
        let player = play_by_chance(rt, board, cache, player, random);
        played.push(player).expect(rt, "memory");
    }
    played
}

fn are_over(players: &[Player]) -> bool {
    for player in players {
        if !player.over {
            return false;
        }
    }
    true
}

fn turns_of(players: &[Player]) -> usize {
    let mut count: usize = 0;
    for player in players {
        count = count.saturating_add(player.turns);
    }
    count
}

// Players take turns, in an order that chance gives, until each was told that the board is over.
fn play_to_end<R: Wait + Abort>(
    rt: &R,
    alloc: Global,
    board: &SeatBoard,
    first: Player,
    others: Vec<Player>,
    random: u32,
) -> (Player, Vec<Player>)
    requires first { IsPlayed board.now.lock.table.shared.table_id first.pass first.done first.over }
    requires others { All (λ p. IsPlayed board.now.lock.table.shared.table_id p.pass p.done p.over) others.items }
    ensures first { IsPlayed board.now.lock.table.shared.table_id result.0.pass result.0.done result.0.over }
    ensures same { IsSame (known first.pass) (known result.0.pass) }
    ensures others { All (λ p. IsPlayed board.now.lock.table.shared.table_id p.pass p.done p.over) result.1.items }
    ensures len { vec_len result.1 ≡ vec_len others }
    ensures over { result.0.over ≡ true }
{
    let mut cache = DecodeCache::new(alloc).expect(rt, "memory");
    let mut first = first;
    let mut others = others;
    let mut random = random;
    for _ in 0..1_000_000u32 {
        if first.over && are_over(&others) {
            return (first, others);
        }
        first = play_by_chance(rt, board, &mut cache, first, &mut random);
        others = play_each(rt, alloc, board, &mut cache, others, &mut random);
    }
    panic!(rt; "no end")
}

// Players at these seats.
fn players_at(rt: &impl Abort, alloc: Global, board: &SeatBoard, passes: Vec<Pass>) -> Vec<Player>
    requires { AreReady board.now.lock.table.shared.table_id passes.items }
    ensures played { All (λ p. IsPlayed board.now.lock.table.shared.table_id p.pass p.done p.over) result.items }
    ensures len { vec_len result ≡ vec_len passes }
{
    let mut passes = passes;
    let mut players = Vec::new(alloc);
    while let Some(pass) = passes.pop() {
        players.push(player_at(pass)).expect(rt, "memory");
    }
    players
}

// The seats of these players, none of which has a job.
fn passes_of(
    rt: &impl Abort,
    alloc: Global,
    board: &SeatBoard,
    players: Vec<Player>,
) -> Vec<Result<Pass, AllocError>>
    requires { All (λ p. IsPlayed board.now.lock.table.shared.table_id p.pass p.done p.over) players.items }
    ensures ready { All (λ r. IfOk r (IsReady board.now.lock.table.shared.table_id)) result.items }
    ensures len { vec_len result ≡ vec_len players }
{
    let mut players = players;
    let mut passes = Vec::new(alloc);
    while let Some(player) = players.pop() {
        passes.push(Ok(idle(rt, player))).expect(rt, "memory");
    }
    passes
}

// The whole run of the tree of a number by eight seats on one thread, in an order that chance gives, and how many turns its seats had.
fn closed_by_eight<R: Wait + Abort>(rt: &R, alloc: Global, seed: u32) -> (SeatClosed, usize) {
    let (board, mut first) = begun(rt, alloc, booted_from(rt, alloc, seed));
    let passes = seats_beside(alloc, &board, &mut first, 7).expect(rt, "memory");
    let others = players_at(rt, alloc, &board, passes);
    let (first, others) = play_to_end(rt, alloc, &board, player_at(first), others, seed);
    let turns = first.turns.saturating_add(turns_of(&others));
    let first = idle(rt, first);
    let others = passes_of(rt, alloc, &board, others);
    let last = gather(&board, first, others).expect(rt, "memory");
    (board.close(last), turns)
}

#[test]
fn eight_seats_in_any_order_leave_a_history_that_leads_to_the_tree(rt: HostRuntime) {
    for seed in 0..1_000u32 {
        let (closed, turns) = closed_by_eight(&rt, rt.alloc(), seed);
        assert_eq!(rt; closed.turns.len(), turns);
        let again = booted_from(&rt, rt.alloc(), seed);
        assert!(rt; leads(&rt, rt.alloc(), again, &closed.closed));
    }
}
