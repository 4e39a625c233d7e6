ghost use Rattle.std.specs.Prelude.{◌≡◌, IfOk, None};
ghost use Rattle.space_mem.specs.Held.{all_pages};

use fault_model::Fault;
use memory_model::PAGES;
use node_parcel::{Residents, pack, pack_to_send, unpack};
use space_tree::{Cause, Mem, Pages, Status, Top, same_top};
use std::alloc::{AllocError, Global};
use std::process::Abort;
use std::test::Fail;

// Whether an equal top is read of a parcel.
fn is_top_of(
    alloc: Global,
    parcel: &[u8],
    top: &Top,
    known: &Residents,
) -> Result<bool, AllocError> {
    match unpack(alloc, parcel, known) {
        Ok(read) => Ok(same_top(&read, top)),
        Err(Fault::Bad(_)) => Ok(false),
        Err(Fault::Memory) => Err(AllocError),
    }
}

// Whether what is read over a list, of the parcel of a top over it, is an equal top.
fn is_read_over(alloc: Global, top: &Top, known: &Residents) -> Result<bool, AllocError>
    requires { top.now.devices ≡ None }
{
    let parcel = pack(alloc, top, known)?;
    is_top_of(alloc, &parcel, top, known)
}

// The pages of a top, as resident pages.
fn pages_of(alloc: Global, top: &Top) -> Result<Residents, AllocError>
    requires { top.now.devices ≡ None }
{
    let mut known = Residents::new(alloc);
    let packed = pack_to_send(alloc, top, &known)?;
    known.add_all(alloc, &packed.whole)?;
    Ok(known)
}

// Whether a top comes back, over no resident pages and over all of its own.
fn comes_back(alloc: Global, top: &Top) -> Result<bool, AllocError>
    requires { top.now.devices ≡ None }
{
    let known = pages_of(alloc, top)?;
    if !is_read_over(alloc, top, &known)? {
        return Ok(false);
    }
    is_read_over(alloc, top, &Residents::new(alloc))
}

// A memory with bytes in four pages, two of them equal, and a permission alone.
fn memory_of_four(alloc: Global) -> Result<Mem, AllocError> {
    let mut memory = Mem::new(alloc);
    for (at, bytes) in [
        (4096, b"one"),
        (8192, b"two"),
        (12288, b"one"),
        (0x7000_0000, b"far"),
    ] {
        memory.write_bytes(at, bytes)?;
    }
    memory.set_perm(Pages { first: 1, count: 5 }, 5)?;
    Ok(memory)
}

// A top of such a memory.
fn top_of_four(alloc: Global) -> Result<Top, AllocError>
    ensures { IfOk result (λ t. t.devices ≡ None) }
{
    let memory = memory_of_four(alloc)?;
    let mut top = Top::fresh(alloc, 100);
    top.memory = memory;
    Ok(top)
}

#[test]
fn a_top_without_fuel_and_one_with_a_limit_of_0_come_back(rt: HostRuntime) -> Result<(), Fail> {
    let mut top = Top::fresh(rt.alloc(), 100);
    top.pay(100);
    assert!(rt; comes_back(rt.alloc(), &top)?);
    top.limit = Some(0);
    assert!(rt; comes_back(rt.alloc(), &top)?);
    Ok(())
}

// Whether these bytes stand in a parcel in place of its cause and the value.
fn has_status(parcel: &[u8], status: &[u8]) -> bool {
    match parcel.get(132..140) {
        Some(bytes) => bytes == status,
        None => false,
    }
}

// A top that has stopped.
fn stopped(alloc: Global, cause: Cause, value: u32) -> Top
    ensures { result.devices ≡ None }
{
    let mut top = Top::fresh(alloc, 100);
    top.stop(cause, value);
    top
}

// Whether a top that has stopped so comes back, and its parcel has the cause's number and the value.
fn stop_comes_back(alloc: Global, cause: Cause, number: u8, value: u8) -> Result<bool, AllocError> {
    let known = Residents::new(alloc);
    let top = stopped(alloc, cause, u32::from(value));
    let parcel = pack(alloc, &top, &known)?;
    if !has_status(&parcel, &[number, 0, 0, 0, value, 0, 0, 0]) {
        return Ok(false);
    }
    is_top_of(alloc, &parcel, &top, &known)
}

#[test]
fn tops_of_each_cause_come_back_with_their_values(rt: HostRuntime) -> Result<(), Fail> {
    for (cause, number, value) in [
        (Cause::FetchMisaligned, 0, 6),
        (Cause::FetchFault, 1, 4),
        (Cause::Illegal, 2, 255),
        (Cause::Breakpoint, 3, 8),
        (Cause::LoadMisaligned, 4, 3),
        (Cause::LoadFault, 5, 12),
        (Cause::StoreMisaligned, 6, 5),
        (Cause::StoreFault, 7, 16),
        (Cause::Badcall, 16, 1),
        (Cause::Conflict, 17, 20),
        (Cause::Limit, 18, 0),
        (Cause::Fuel, 19, 0),
        (Cause::Ret, 20, 42),
        (Cause::Fresh, 21, 0),
    ] {
        assert!(rt; stop_comes_back(rt.alloc(), cause, number, value)?);
    }
    Ok(())
}

#[test]
fn a_top_that_runs_comes_back(rt: HostRuntime) -> Result<(), Fail> {
    let mut top = Top::fresh(rt.alloc(), 100);
    top.status = Status::Running;
    assert!(rt; comes_back(rt.alloc(), &top)?);
    let parcel = pack(rt.alloc(), &top, &Residents::new(rt.alloc()))?;
    assert!(rt; has_status(&parcel, &[22, 0, 0, 0, 0, 0, 0, 0]));
    Ok(())
}

// What a space has done since its snapshot was taken.
#[derive(Clone, Copy)]
enum Change {
    Nothing,
    OneByte,
    Zeros,
}

// Changes a memory.
fn make_change(memory: &mut Mem, change: Change) -> Result<(), AllocError> {
    match change {
        Change::Nothing => Ok(()),
        Change::OneByte => memory.write(8195, 9),
        Change::Zeros => memory.zero(Pages { first: 1, count: 3 }),
    }
}

// A top with a memory of which each page may differ from its snapshot.
#[tactic(auto, using(space_mem::proofs::Dirty::covers_all))]
fn top_with(alloc: Global, memory: Mem, snapshot: Mem) -> Top
    requires { memory.dirty ≡ all_pages }
    ensures { result.devices ≡ None }
{
    let mut top = Top::fresh(alloc, 100);
    top.memory = memory;
    top.snapshot = Some(snapshot);
    top
}

// A top with a snapshot, changed since.
fn top_with_snapshot(alloc: Global, since: Change) -> Result<Top, AllocError>
    ensures { IfOk result (λ t. t.devices ≡ None) }
{
    let mut memory = memory_of_four(alloc)?;
    let snapshot = memory.frozen()?;
    make_change(&mut memory, since)?;
    memory.mark_all();
    Ok(top_with(alloc, memory, snapshot))
}

// Whether such a top comes back.
fn with_snapshot(alloc: Global, since: Change) -> Result<bool, AllocError> {
    let top = top_with_snapshot(alloc, since)?;
    comes_back(alloc, &top)
}

#[test]
fn tops_with_snapshots_come_back(rt: HostRuntime) -> Result<(), Fail> {
    for since in [Change::Nothing, Change::OneByte, Change::Zeros] {
        assert!(rt; with_snapshot(rt.alloc(), since)?);
    }
    Ok(())
}

// A top without bytes and permissions, whose snapshot has four pages.
fn top_of_a_snapshot_alone(alloc: Global) -> Result<Top, AllocError>
    ensures { IfOk result (λ t. t.devices ≡ None) }
{
    let snapshot = memory_of_four(alloc)?;
    let mut memory = Mem::new(alloc);
    memory.mark_all();
    Ok(top_with(alloc, memory, snapshot))
}

// The first dirty page from one on, and 1,048,576 where there is none.
fn dirty_from(memory: &Mem, page: u32) -> u32 {
    memory.next_dirty(page).unwrap_or(1_048_576)
}

// The first dirty pages of a top that is read of a parcel, from each of five pages on.
fn dirty_of_read(alloc: Global, parcel: &[u8]) -> Result<[u32; 5], AllocError> {
    match unpack(alloc, parcel, &Residents::new(alloc)) {
        Ok(top) => Ok([
            dirty_from(&top.memory, 0),
            dirty_from(&top.memory, 2),
            dirty_from(&top.memory, 3),
            dirty_from(&top.memory, 4),
            dirty_from(&top.memory, 0x70001),
        ]),
        Err(Fault::Bad(_)) => Ok([0; 5]),
        Err(Fault::Memory) => Err(AllocError),
    }
}

// The first dirty pages of a top that is sent.
fn dirty_of_sent(alloc: Global, top: &Top) -> Result<[u32; 5], AllocError>
    requires { top.now.devices ≡ None }
{
    let parcel = pack(alloc, top, &Residents::new(alloc))?;
    dirty_of_read(alloc, &parcel)
}

#[test]
fn pages_that_only_a_snapshot_has_are_dirty(rt: HostRuntime) -> Result<(), Fail> {
    let top = top_of_a_snapshot_alone(rt.alloc())?;
    assert!(rt; comes_back(rt.alloc(), &top)?);
    let dirty = dirty_of_sent(rt.alloc(), &top)?;
    assert_eq!(rt; dirty, [1, 2, 3, 0x70000, 1_048_576]);
    Ok(())
}

#[test]
fn a_top_of_four_pages_comes_back(rt: HostRuntime) -> Result<(), Fail> {
    let top = top_of_four(rt.alloc())?;
    assert!(rt; comes_back(rt.alloc(), &top)?);
    Ok(())
}

// A top with a memory.
fn top_over(alloc: Global, memory: Mem) -> Top
    ensures { result.devices ≡ None }
{
    let mut top = Top::fresh(alloc, 100);
    top.memory = memory;
    top
}

// A memory without bytes, whose pages all have a permission.
fn memory_of_permissions(alloc: Global) -> Result<Mem, AllocError> {
    let mut memory = Mem::new(alloc);
    let all = Pages {
        first: 0,
        count: PAGES,
    };
    memory.set_perm(all, 6)?;
    Ok(memory)
}

#[test]
fn all_permissions_come_back(rt: HostRuntime) -> Result<(), Fail> {
    let top = top_over(rt.alloc(), memory_of_permissions(rt.alloc())?);
    let known = Residents::new(rt.alloc());
    assert!(rt; is_read_over(rt.alloc(), &top, &known)?);
    Ok(())
}
