ghost use Rattle.std.specs.Prelude.{◌≡◌, ◌+◌, OnOk, OnErr, IfOk, IfSome, is_some, None, option_map, if◌then◌else◌};
ghost use Rattle.call_model.specs.declared.Call.TheVariants.{Fork, Tfork};
ghost use Rattle.space_model.specs.Beginning.{fresh_top};
ghost use Rattle.space_model.specs.Call.{edit, change};
ghost use Rattle.space_model.specs.Caller.{MayCall, met_by, with_action, StaysSound};
ghost use Rattle.space_model.specs.Event.{MayPay};
ghost use Rattle.space_model.specs.Files.{with_file_bases};
ghost use Rattle.space_model.specs.Meeting.{or_fresh};
ghost use Rattle.space_model.specs.Runtime as runtime;
ghost use Rattle.space_model.specs.Space.{space, none, children_of, find, top_of};
ghost use Rattle.space_mem.specs.Held.{all_pages};
ghost use Rattle.user_runtime.specs.Calls.{Suits, after_fork_of, fork_call, forked_memory, memory_of};

use memory_files::mark_base;
use rv_exec::Regs;
use snapshot::take;
use space_tree::{Children, Mem, Space, Status, Top};
use std::alloc::{AllocError, Global};

// The registers of a child that is forked: it goes on behind the call, with a0 = 1.
fn fork_registers(caller: &Regs) -> Regs
    ensures { result ≡ runtime.fork_registers caller.now }
{
    let mut registers = *caller;
    registers.pc = registers.pc.wrapping_add(4);
    registers.set_register(10, 1);
    registers
}

// A child keeps this snapshot, where there is one, else the one that it had.
fn keep(snapshot: Option<Mem>, kept: &mut Option<Mem>)
    ensures { kept.new ≡ (if is_some snapshot then snapshot else kept.old) }
{
    if snapshot.is_some() {
        *kept = snapshot;
    }
}

// A child becomes what a fork makes of it, with a copy of its caller's memory: a thread's has another one as its snapshot, a process's has
// the base of each file.
fn give(caller: &Top, memory: Mem, snapshot: Option<Mem>, child: &mut Top)
    requires copy { memory.memory ≡ forked_memory (is_some snapshot) caller.now.memory }
    requires kept { IfSome snapshot (λ s. s.memory ≡ caller.now.memory) }
    requires suits { Suits memory snapshot }
    ensures { child.new ≡ after_fork_of (is_some snapshot) caller.now child.old }
{
    caller.memory.bounds();
    child.memory.bounds();
    child.registers = fork_registers(&caller.registers);
    child.memory = memory;
    keep(snapshot, &mut child.snapshot);
    child.status = Status::Running;
    child.limit = None;
}

// As `give`; the child's own children stay.
fn give_top(caller: &Top, memory: Mem, snapshot: Option<Mem>, child: &mut Space)
    requires copy { memory.memory ≡ forked_memory (is_some snapshot) caller.now.memory }
    requires kept { IfSome snapshot (λ s. s.memory ≡ caller.now.memory) }
    requires suits { Suits memory snapshot }
    ensures { child.new ≡ space (after_fork_of (is_some snapshot) caller.now (top_of child.old)) (children_of child.old) }
{
    give(caller, memory, snapshot, &mut child.top);
}

// The child that a fork makes.
fn make_child(alloc: Global, caller: &Top, memory: Mem, snapshot: Option<Mem>) -> Space
    requires copy { memory.memory ≡ forked_memory (is_some snapshot) caller.now.memory }
    requires kept { IfSome snapshot (λ s. s.memory ≡ caller.now.memory) }
    requires suits { Suits memory snapshot }
    ensures { result ≡ space (after_fork_of (is_some snapshot) caller.now (fresh_top (caller.now.fuel + caller.now.used))) none }
{
    let mut top = Top::fresh(alloc, caller.total_fuel());
    give(caller, memory, snapshot, &mut top);
    Space::alone(alloc, top)
}

// The child of that number becomes what a fork makes of it; one that is missing is made. At an error the children are as they were.
fn give_child(
    alloc: Global,
    number: u16,
    caller: &Top,
    memory: Mem,
    snapshot: Option<Mem>,
    children: &mut Children,
) -> Result<(), AllocError>
    requires copy { memory.memory ≡ forked_memory (is_some snapshot) caller.now.memory }
    requires kept { IfSome snapshot (λ s. s.memory ≡ caller.now.memory) }
    requires suits { Suits memory snapshot }
    ensures ok { let cs = children.old in OnOk result (children.new ≡ edit (change number (after_fork_of (is_some snapshot) caller.now (or_fresh caller.now (option_map top_of (find number cs))))) cs) }
    ensures err { OnErr result (children.new ≡ children.old) }
{
    match children.get_mut(number) {
        Some(child) => {
            give_top(caller, memory, snapshot, child);
            Ok(())
        }
        None => {
            let child = make_child(alloc, caller, memory, snapshot);
            children.insert(alloc, number, child)
        }
    }
}

// What a fork does, of a caller that has not paid yet, by a copy of its memory, and another one for a thread. At an error nothing is changed.
fn fork_by(
    alloc: Global,
    number: u16,
    memory: Mem,
    snapshot: Option<Mem>,
    space: &mut Space,
) -> Result<(), AllocError>
    requires copy { memory.memory ≡ forked_memory (is_some snapshot) (memory_of space.old) }
    requires kept { IfSome snapshot (λ s. s.memory ≡ memory_of space.old) }
    requires suits { Suits memory snapshot }
    requires pays { MayPay (top_of space.old) }
    ensures ok { OnOk result (space.new ≡ with_action (fork_call (is_some snapshot) number) space.old) }
    ensures err { OnErr result (space.new ≡ space.old) }
{
    give_child(
        alloc,
        number,
        &space.top,
        memory,
        snapshot,
        &mut space.children,
    )?;
    space.top.pay_and_succeed();
    Ok(())
}

// A copy of a space's memory.
#[tactic(auto, using(space_mem::proofs::Dirty::covers_in_same))]
fn memory_copy(space: &mut Space) -> Result<Mem, AllocError>
    ensures equal { IfOk result (λ m. m.memory ≡ memory_of space.old) }
    ensures same { space.new ≡ space.old }
{
    space.top.memory.share()
}

// A copy of a space's memory in which each file has its base, and of which each page may differ from any snapshot.
fn process_memory(space: &mut Space) -> Result<Mem, AllocError>
    ensures based { IfOk result (λ m. m.memory ≡ with_file_bases (memory_of space.old)) }
    ensures all { IfOk result (λ m. m.dirty ≡ all_pages) }
    ensures same { space.new ≡ space.old }
{
    let mut memory = memory_copy(space)?;
    mark_base(&mut memory)?;
    memory.mark_all();
    Ok(memory)
}

/// Fork of a process (OSDI 2010, "Efficient System-Enforced Deterministic Parallelism", the section on emulating high-level abstractions), of a
/// caller at this depth, 0 to 7, that has not paid yet, once the child, 0 to 65,535, has stopped or is missing. The child, made where it is
/// missing, gets the caller's registers and a copy of all of its memory, in which each file has its version and length as its base, and runs
/// without a limit behind the call, with a0 = 1; its own children, its snapshot, fuel and use stay. The caller pays one unit and goes on with
/// a0 = 0. The one error is want of memory: nothing is changed then.
pub fn fork(alloc: Global, child: u16, depth: u8, space: &mut Space) -> Result<(), AllocError>
    requires { MayCall depth (Fork child) space.old }
    ensures ok { OnOk result (space.new ≡ met_by depth (Fork child) space.old) }
    ensures err { OnErr result (space.new ≡ space.old) }
    ensures sound { StaysSound depth space.old space.new }
{
    let memory = process_memory(space)?;
    fork_by(alloc, child, memory, None, space)
}

/// Fork of a thread that shares memory (OSDI 2010, "Efficient System-Enforced Deterministic Parallelism", the section on emulating high-level
/// abstractions), of a caller at this depth, 0 to 7: as `fork`, but its files get no base, and the child's new memory is kept as its snapshot too,
/// for `tjoin` to merge against. The one error is want of memory: nothing is changed then.
pub fn tfork(alloc: Global, child: u16, depth: u8, space: &mut Space) -> Result<(), AllocError>
    requires { MayCall depth (Tfork child) space.old }
    ensures ok { OnOk result (space.new ≡ met_by depth (Tfork child) space.old) }
    ensures err { OnErr result (space.new ≡ space.old) }
    ensures sound { StaysSound depth space.old space.new }
{
    let mut memory = memory_copy(space)?;
    let snapshot = take(&mut memory)?;
    fork_by(alloc, child, memory, Some(snapshot), space)
}
