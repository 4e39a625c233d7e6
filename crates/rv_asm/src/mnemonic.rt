ghost use Rattle.std.specs.Prelude.{◌≡◌, IfOk, IfSome};
ghost use Rattle.rv_asm.specs.Gives.{GivesExactly};
ghost use Rattle.rv_asm.specs.Sound.{IsMnemonic};
ghost use Rattle.source_model.specs.Mnemonic as mnemonics;

use crate::text::is_text;
use source_model::{AsmErrorKind, Comparison, Instruction, LoadKind, Mnemonic, Operation, Width};

#[tactic(auto, unfolding(source_model::specs::Mnemonic::operation_of))]
fn operation_of(word: &[u8]) -> Option<Mnemonic>
    ensures value { result ≡ mnemonics.operation_of word.now }
    ensures sound { IfSome result (λ m. IsMnemonic m) }
{
    if is_text(word, "add") {
        Some(Mnemonic::Operate(Operation::Add))
    } else if is_text(word, "sub") {
        Some(Mnemonic::Operate(Operation::Sub))
    } else if is_text(word, "sll") {
        Some(Mnemonic::Operate(Operation::Sll))
    } else if is_text(word, "slt") {
        Some(Mnemonic::Operate(Operation::Slt))
    } else if is_text(word, "sltu") {
        Some(Mnemonic::Operate(Operation::Sltu))
    } else if is_text(word, "xor") {
        Some(Mnemonic::Operate(Operation::Xor))
    } else if is_text(word, "srl") {
        Some(Mnemonic::Operate(Operation::Srl))
    } else if is_text(word, "sra") {
        Some(Mnemonic::Operate(Operation::Sra))
    } else if is_text(word, "or") {
        Some(Mnemonic::Operate(Operation::Or))
    } else if is_text(word, "and") {
        Some(Mnemonic::Operate(Operation::And))
    } else {
        None
    }
}

#[tactic(auto, unfolding(source_model::specs::Mnemonic::immediate_of))]
fn immediate_of(word: &[u8]) -> Option<Mnemonic>
    ensures value { result ≡ mnemonics.immediate_of word.now }
    ensures sound { IfSome result (λ m. IsMnemonic m) }
{
    if is_text(word, "addi") {
        Some(Mnemonic::OperateImmediate(Operation::Add))
    } else if is_text(word, "slti") {
        Some(Mnemonic::OperateImmediate(Operation::Slt))
    } else if is_text(word, "sltiu") {
        Some(Mnemonic::OperateImmediate(Operation::Sltu))
    } else if is_text(word, "xori") {
        Some(Mnemonic::OperateImmediate(Operation::Xor))
    } else if is_text(word, "ori") {
        Some(Mnemonic::OperateImmediate(Operation::Or))
    } else if is_text(word, "andi") {
        Some(Mnemonic::OperateImmediate(Operation::And))
    } else if is_text(word, "slli") {
        Some(Mnemonic::ShiftImmediate(Operation::Sll))
    } else if is_text(word, "srli") {
        Some(Mnemonic::ShiftImmediate(Operation::Srl))
    } else if is_text(word, "srai") {
        Some(Mnemonic::ShiftImmediate(Operation::Sra))
    } else {
        None
    }
}

#[tactic(auto, unfolding(source_model::specs::Mnemonic::memory_of))]
fn memory_of(word: &[u8]) -> Option<Mnemonic>
    ensures value { result ≡ mnemonics.memory_of word.now }
    ensures sound { IfSome result (λ m. IsMnemonic m) }
{
    if is_text(word, "lb") {
        Some(Mnemonic::Load(LoadKind::Lb))
    } else if is_text(word, "lh") {
        Some(Mnemonic::Load(LoadKind::Lh))
    } else if is_text(word, "lw") {
        Some(Mnemonic::Load(LoadKind::Lw))
    } else if is_text(word, "lbu") {
        Some(Mnemonic::Load(LoadKind::Lbu))
    } else if is_text(word, "lhu") {
        Some(Mnemonic::Load(LoadKind::Lhu))
    } else if is_text(word, "sb") {
        Some(Mnemonic::Store(Width::One))
    } else if is_text(word, "sh") {
        Some(Mnemonic::Store(Width::Two))
    } else if is_text(word, "sw") {
        Some(Mnemonic::Store(Width::Four))
    } else {
        None
    }
}

#[tactic(auto, unfolding(source_model::specs::Mnemonic::branch_of))]
fn branch_of(word: &[u8]) -> Option<Mnemonic>
    ensures value { result ≡ mnemonics.branch_of word.now }
    ensures sound { IfSome result (λ m. IsMnemonic m) }
{
    if is_text(word, "beq") {
        Some(Mnemonic::Branch(Comparison::Beq))
    } else if is_text(word, "bne") {
        Some(Mnemonic::Branch(Comparison::Bne))
    } else if is_text(word, "blt") {
        Some(Mnemonic::Branch(Comparison::Blt))
    } else if is_text(word, "bge") {
        Some(Mnemonic::Branch(Comparison::Bge))
    } else if is_text(word, "bltu") {
        Some(Mnemonic::Branch(Comparison::Bltu))
    } else if is_text(word, "bgeu") {
        Some(Mnemonic::Branch(Comparison::Bgeu))
    } else {
        None
    }
}

#[tactic(auto, unfolding(source_model::specs::Mnemonic::other_of))]
fn other_of(word: &[u8]) -> Option<Mnemonic>
    ensures value { result ≡ mnemonics.other_of word.now }
    ensures sound { IfSome result (λ m. IsMnemonic m) }
{
    if is_text(word, "jalr") {
        Some(Mnemonic::Jalr)
    } else if is_text(word, "jal") {
        Some(Mnemonic::Jal)
    } else if is_text(word, "lui") {
        Some(Mnemonic::Lui)
    } else if is_text(word, "auipc") {
        Some(Mnemonic::Auipc)
    } else if is_text(word, "fence") {
        Some(Mnemonic::Alone(Instruction::Fence))
    } else if is_text(word, "ecall") {
        Some(Mnemonic::Alone(Instruction::Ecall))
    } else if is_text(word, "ebreak") {
        Some(Mnemonic::Alone(Instruction::Ebreak))
    } else {
        None
    }
}

#[tactic(auto, unfolding(source_model::specs::Mnemonic::directive_of))]
fn directive_of(word: &[u8]) -> Option<Mnemonic>
    ensures value { result ≡ mnemonics.directive_of word.now }
    ensures sound { IfSome result (λ m. IsMnemonic m) }
{
    if is_text(word, "li") {
        Some(Mnemonic::LoadImmediate)
    } else if is_text(word, ".segment") {
        Some(Mnemonic::Segment)
    } else if is_text(word, ".dti2") {
        Some(Mnemonic::Dti2)
    } else if is_text(word, ".entry") {
        Some(Mnemonic::Entry)
    } else if is_text(word, ".stack") {
        Some(Mnemonic::Stack)
    } else if is_text(word, ".word") {
        Some(Mnemonic::Word)
    } else if is_text(word, ".byte") {
        Some(Mnemonic::Byte)
    } else if is_text(word, ".zero") {
        Some(Mnemonic::Zero)
    } else {
        None
    }
}

/// What the first word of a statement asks for.
#[tactic(auto, unfolding(source_model::specs::Mnemonic::mnemonic_of))]
pub(crate) fn mnemonic_of(word: &[u8]) -> Result<Mnemonic, AsmErrorKind>
    ensures value { GivesExactly (λ m. m) result (mnemonics.mnemonic_of word.now) }
    ensures sound { IfOk result (λ m. IsMnemonic m) }
{
    operation_of(word)
        .or_else(|| immediate_of(word))
        .or_else(|| memory_of(word))
        .or_else(|| branch_of(word))
        .or_else(|| other_of(word))
        .or_else(|| directive_of(word))
        .ok_or(AsmErrorKind::Word)
}
