ghost use Rattle.std.specs.Prelude.{◌≡◌, true, IfOk, IfSome, IsNone};
ghost use Rattle.space_model.specs.Space.{is_settled};
ghost use Rattle.space_model.specs.Sound.{IsSound};
ghost use Rattle.run_model.specs.Demand.{settle_tree};
ghost use Rattle.det_cli.specs.Ending.{Ends};

use crate::evaluating::{Booted, Plan, settle_still};
use crate::staff::Staff;
use board::{Board, Closed, run_alone, run_together};
use det_host::Gate;
use seat_board::{SeatRun, run_seats};
use space_tree::{Space, copy_tree, is_settled, same};
use std::alloc::{AllocError, Global};
use std::sync::Wait;
use std::thread::Threads;

// The last tree of a closed board, where it is settled and the board began with this root.
fn end_from(closed: Closed, root: &Space) -> Option<Space>
    requires { is_settled closed.tree ≡ true → closed.tree ≡ settle_tree closed.boot }
    ensures some { IfSome result (λ s. (s ≡ settle_tree root.now) × (is_settled s ≡ true)) }
    ensures none { IsNone result → closed.boot ≡ root.now → is_settled closed.tree ≡ true → ⊥ }
{
    let Closed { boot, tree, .. } = closed;
    if same(&boot, root) && is_settled(&tree) {
        Some(tree)
    } else {
        None
    }
}

// What a root settles to, by a board of its own, which this thread alone drives to its end.
fn settle_alone<R: Wait>(rt: &R, alloc: Global, root: Space) -> Result<Space, AllocError>
    requires { IsSound root }
    ensures meaning { IfOk result (λ s. s ≡ settle_tree root) }
    ensures settled { IfOk result (λ s. is_settled s ≡ true) }
{
    let board = Board::begin(alloc, root, 1)?;
    let Closed { tree, .. } = run_alone(rt, board)?;
    Ok(tree)
}

// What a root settles to, by so many workers on so many nodes. What comes out of the lock is known by its type alone: a board with a legal history of the tree that it began
// with. That this tree is the root, and that the board came to its end, is looked at, by a copy of the root that shares its pages.
fn settle_by_workers<R: Threads + Wait + Sync, G: Gate>(
    rt: &R,
    alloc: Global,
    root: Space,
    staff: Staff,
    gate: &G,
) -> Result<Space, AllocError>
    requires { IsSound root }
    ensures meaning { IfOk result (λ s. s ≡ settle_tree root) }
    ensures settled { IfOk result (λ s. is_settled s ≡ true) }
{
    let mut root = root;
    let copy = copy_tree(alloc, &mut root)?;
    let board = match staff.link {
        Some(seed) => Board::begin_linked(alloc, root, staff.nodes, seed)?,
        None => Board::begin(alloc, root, staff.nodes)?,
    };
    let closed = run_together(rt, board, staff.workers, gate)?;
    match end_from(closed, &copy) {
        Some(end) => Ok(end),
        None => settle_alone(rt, alloc, copy),
    }
}

// What a root settles to, by so many workers in seats on so many nodes. They know that the board began with the root, and that it came to its end: so nothing is compared.
fn settle_by_seats<R: Threads + Wait + Sync, G: Gate>(
    rt: &R,
    alloc: Global,
    root: Space,
    staff: Staff,
    gate: &G,
) -> Result<Space, AllocError>
    requires { IsSound root }
    ensures meaning { IfOk result (λ s. s ≡ settle_tree root) }
    ensures settled { IfOk result (λ s. is_settled s ≡ true) }
{
    let SeatRun { closed, .. } = run_seats(
        rt,
        alloc,
        root,
        staff.nodes,
        staff.link,
        staff.workers,
        gate,
    )?;
    let Closed { tree, .. } = closed;
    Ok(tree)
}

/// Brings a root to its end as `settle_still` does, but for a plan of workers, which is done by them. `gate` is told of their events.
pub(crate) fn settle_pooled<R: Threads + Wait + Sync, G: Gate>(
    rt: &R,
    alloc: Global,
    booted: Booted,
    gate: &G,
) -> Result<Space, AllocError>
    requires { IsSound booted.root }
    ensures { Ends booted.root result }
{
    match booted.plan {
        Plan::Pool(staff) => settle_by_workers(rt, alloc, booted.root, staff, gate),
        Plan::Seats(staff) => settle_by_seats(rt, alloc, booted.root, staff, gate),
        _ => settle_still(rt, alloc, booted),
    }
}
