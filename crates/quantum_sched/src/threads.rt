ghost use Rattle.std.specs.Prelude.{◌≡◌, ◌+◌, ◌≤◌, ◌^◌};
ghost use Rattle.space_model.specs.Space.{find};
ghost use Rattle.space_model.specs.Runtime.{shared_pages};
ghost use Rattle.space_model.specs.Quanta as model;
ghost use Rattle.space_model.specs.Quanta.{count_waiting};
ghost use Rattle.quantum_model.specs.Rows.{threads_in};
ghost use Rattle.quantum_sched.specs.Rows.{thread_at};

use space_tree::{Cause, Children, Pages, Status, Top};

// The pages that threads share with their caller: those below the address 0xC0000000.
pub fn shared() -> Pages
    ensures first { result.first ≡ 0 }
    ensures count { result.count ≡ shared_pages }
{
    Pages {
        first: 0,
        count: 0xC0000,
    }
}

// Whether a thread waits for a quantum.
pub fn waits(thread: &Top) -> bool
    ensures { result ≡ model.waits thread.now.status }
{
    match thread.status {
        Status::Stopped { cause, .. } => cause == Cause::Limit,
        Status::Running => false,
    }
}

// 1 where the child of a number waits for a quantum.
fn waiting_at(children: &Children, number: u16) -> u32
    ensures value { result ≡ count_waiting (thread_at number (find number children.now)) }
    ensures few { result ≤ 1 }
{
    match children.get(number) {
        Some(child) => u32::from(waits(&child.top)),
        None => 0,
    }
}

// How many children of a row wait for a quantum.
pub fn count_waiting(children: &Children, first: u16, count: u16) -> u32
    requires { first + count ≤ 2 ^ 16 }
    ensures { result ≡ count_waiting (threads_in first count children.now) }
{
    let mut waiting: u32 = 0;
    for done in 0..count {
        waiting += waiting_at(children, first + done);
    }
    waiting
}
