ghost use Rattle.std.specs.Prelude.{◌≡◌, IfOk, OnOk, OnErr};
ghost use Rattle.file_model.specs.Operations.{error_number};
ghost use Rattle.call_model.specs.Accepted.{IsFileCall};
ghost use Rattle.space_model.specs.Change.{after_payment};
ghost use Rattle.space_model.specs.Event.{MayPay, after_answer, after_file_call};
ghost use Rattle.space_model.specs.Files as files;

use file_model::FileError;
use space_model::FileAnswer;
use space_tree::Top;
use std::alloc::AllocError;
use trap_ret::FileCall;

// The number that a refused call on a file answers.
fn error_number(error: FileError) -> u32
    ensures { result ≡ error_number error }
{
    match error {
        FileError::NoFile => 1,
        FileError::Exists => 2,
        FileError::NoSlot => 3,
        FileError::TooLong => 4,
        FileError::Conflicted => 5,
        FileError::BadName => 6,
        FileError::NotAppend => 7,
    }
}

// A call on a file answers: a byte that lacks a right stops the space.
fn tell(top: &mut Top, answer: FileAnswer)
    ensures { top.new ≡ after_answer answer top.old }
{
    match answer {
        FileAnswer::Done(count) => top.finish(count),
        FileAnswer::Refused(error) => top.fail(error_number(error)),
        FileAnswer::Fault(refusal) => top.stop(refusal.cause, refusal.value),
    }
}

// A call on a file in the memory of a space, before the space has its answer. At an error nothing has changed.
#[tactic(auto, using(space_mem::proofs::Dirty::covers_in_after))]
fn call_in_memory(top: &mut Top, call: FileCall) -> Result<FileAnswer, AllocError>
    requires { IsFileCall call }
    ensures answer { IfOk result (λ a. a ≡ (files.file_call call top.old.memory).answer) }
    ensures memory { OnOk result (top.new ≡ record top.old { memory = (files.file_call call top.old.memory).memory }) }
    ensures err { OnErr result (top.new ≡ top.old) }
{
    memory_files::file_call(&mut top.memory, call)
}

/// A call on a file in the memory of a space, which is paid for. The one error is want of memory: nothing has changed then.
#[tactic(auto, using(crate::proofs::CallEvents::file_answered))]
pub(crate) fn file_call(top: &mut Top, call: FileCall) -> Result<(), AllocError>
    requires is_call { IsFileCall call }
    requires may_pay { MayPay top.old }
    ensures ok { OnOk result (top.new ≡ after_payment top.old (after_file_call (files.file_call call top.old.memory) top.old)) }
    ensures err { OnErr result (top.new ≡ top.old) }
{
    let answer = call_in_memory(top, call)?;
    top.pay(1);
    tell(top, answer);
    Ok(())
}
