ghost use Rattle.std.specs.Prelude.{◌≡◌, ◌<◌, ◌≤◌, ◌%◌, ◌^◌, IfOk, Ok};
ghost use Rattle.instruction_model.specs.Form.{HasFields, IsSigned};
ghost use Rattle.rv_asm.specs.Gives.{GivesExactly};
ghost use Rattle.rv_asm.specs.Sound.{IsStatement, HasNumber, IsShift, IsMnemonic};
ghost use Rattle.source_model.specs.Statement as statements;

use crate::mnemonic::mnemonic_of;
use crate::number::{count, immediate, unsigned, value_of};
use crate::register::register_of;
use crate::text::{cut, one_word, three_words, trim, two_apart, two_words, word_and_address};
use memory_model::GREATEST_PERMISSION;
use source_model::{
    AsmErrorKind, Class, Comparison, Instruction, LoadKind, Mnemonic, Operation, Statement, Width,
};

/// A statement, and the word that may name its label.
pub(crate) type Read<'a> = Result<(Statement, &'a [u8]), AsmErrorKind>;

fn plain<'a>(instruction: Instruction) -> Read<'a>
    requires { HasFields instruction }
    ensures value { GivesExactly (λ x. (x.0, x.1.now)) result (statements.plain instruction) }
    ensures sound { IfOk result (λ x. IsStatement x.0) }
{
    Ok((Statement::Plain(instruction), &[]))
}

#[tactic(auto, unfolding(source_model::specs::Statement::operate))]
fn operate<'a>(operation: Operation, text: &'a [u8]) -> Read<'a>
    ensures value { GivesExactly (λ x. (x.0, x.1.now)) result (statements.operate operation text.now) }
    ensures sound { IfOk result (λ x. IsStatement x.0) }
{
    let (rd, rs1, rs2) = three_words(text)?;
    let rd = register_of(rd)?;
    let rs1 = register_of(rs1)?;
    let rs2 = register_of(rs2)?;
    plain(Instruction::Operate {
        operation,
        rd,
        rs1,
        rs2,
    })
}

#[tactic(auto, unfolding(source_model::specs::Statement::operate_immediate))]
fn operate_immediate<'a>(operation: Operation, text: &'a [u8]) -> Read<'a>
    requires { HasNumber operation }
    ensures value { GivesExactly (λ x. (x.0, x.1.now)) result (statements.operate_immediate operation text.now) }
    ensures sound { IfOk result (λ x. IsStatement x.0) }
{
    let (rd, rs1, number) = three_words(text)?;
    let rd = register_of(rd)?;
    let rs1 = register_of(rs1)?;
    let immediate = immediate(number)?;
    plain(Instruction::OperateImmediate {
        operation,
        rd,
        rs1,
        immediate,
    })
}

#[tactic(auto, unfolding(source_model::specs::Statement::shift_immediate))]
fn shift_immediate<'a>(operation: Operation, text: &'a [u8]) -> Read<'a>
    requires { IsShift operation }
    ensures value { GivesExactly (λ x. (x.0, x.1.now)) result (statements.shift_immediate operation text.now) }
    ensures sound { IfOk result (λ x. IsStatement x.0) }
{
    let (rd, rs1, number) = three_words(text)?;
    let rd = register_of(rd)?;
    let rs1 = register_of(rs1)?;
    let immediate = unsigned(31, number)?;
    plain(Instruction::OperateImmediate {
        operation,
        rd,
        rs1,
        immediate,
    })
}

// A register, and a register in parentheses with a number before it.
#[tactic(auto, unfolding(source_model::specs::Statement::address_of))]
fn address_of(text: &[u8]) -> Result<(u8, u8, u32), AsmErrorKind>
    ensures value { GivesExactly (λ x. x) result (statements.address_of text.now) }
    ensures register { IfOk result (λ x. x.0 < 32) }
    ensures base { IfOk result (λ x. x.1 < 32) }
    ensures offset { IfOk result (λ x. IsSigned 12 x.2) }
{
    let (register, number, base) = word_and_address(text)?;
    let register = register_of(register)?;
    let base = register_of(base)?;
    let offset = immediate(number)?;
    Ok((register, base, offset))
}

#[tactic(auto, unfolding(source_model::specs::Statement::load))]
fn load<'a>(kind: LoadKind, text: &'a [u8]) -> Read<'a>
    ensures value { GivesExactly (λ x. (x.0, x.1.now)) result (statements.load kind text.now) }
    ensures sound { IfOk result (λ x. IsStatement x.0) }
{
    let (rd, rs1, immediate) = address_of(text)?;
    plain(Instruction::Load {
        kind,
        rd,
        rs1,
        immediate,
    })
}

#[tactic(auto, unfolding(source_model::specs::Statement::jump_to_register))]
fn jump_to_register(text: &[u8]) -> Read<'_>
    ensures value { GivesExactly (λ x. (x.0, x.1.now)) result (statements.jump_to_register text.now) }
    ensures sound { IfOk result (λ x. IsStatement x.0) }
{
    let (rd, rs1, immediate) = address_of(text)?;
    plain(Instruction::Jalr { rd, rs1, immediate })
}

#[tactic(auto, unfolding(source_model::specs::Statement::store))]
fn store<'a>(width: Width, text: &'a [u8]) -> Read<'a>
    ensures value { GivesExactly (λ x. (x.0, x.1.now)) result (statements.store width text.now) }
    ensures sound { IfOk result (λ x. IsStatement x.0) }
{
    let (rs2, rs1, immediate) = address_of(text)?;
    plain(Instruction::Store {
        width,
        rs1,
        rs2,
        immediate,
    })
}

#[tactic(auto, unfolding(source_model::specs::Statement::branch))]
fn branch<'a>(comparison: Comparison, text: &'a [u8]) -> Read<'a>
    ensures value { GivesExactly (λ x. (x.0, x.1.now)) result (statements.branch comparison text.now) }
    ensures sound { IfOk result (λ x. IsStatement x.0) }
{
    let (rs1, rs2, name) = three_words(text)?;
    let rs1 = register_of(rs1)?;
    let rs2 = register_of(rs2)?;
    let target = value_of(name)?;
    Ok((
        Statement::Branch {
            comparison,
            rs1,
            rs2,
            target,
        },
        name,
    ))
}

#[tactic(auto, unfolding(source_model::specs::Statement::jump))]
fn jump(text: &[u8]) -> Read<'_>
    ensures value { GivesExactly (λ x. (x.0, x.1.now)) result (statements.jump text.now) }
    ensures sound { IfOk result (λ x. IsStatement x.0) }
{
    let (rd, name) = two_words(text)?;
    let rd = register_of(rd)?;
    let target = value_of(name)?;
    Ok((Statement::Jump { rd, target }, name))
}

// A register, and a number for bits 31 to 12.
#[tactic(auto, unfolding(source_model::specs::Statement::upper))]
fn upper(text: &[u8]) -> Result<(u8, u32), AsmErrorKind>
    ensures value { GivesExactly (λ x. x) result (statements.upper text.now) }
    ensures register { IfOk result (λ x. x.0 < 32) }
    ensures low { IfOk result (λ x. x.1 % 2 ^ 12 ≡ 0) }
{
    let (rd, number) = two_words(text)?;
    let rd = register_of(rd)?;
    let number = unsigned(0xf_ffff, number)?;
    Ok((rd, 4096 * number))
}

#[tactic(auto, unfolding(source_model::specs::Statement::load_upper))]
fn load_upper(text: &[u8]) -> Read<'_>
    ensures value { GivesExactly (λ x. (x.0, x.1.now)) result (statements.load_upper text.now) }
    ensures sound { IfOk result (λ x. IsStatement x.0) }
{
    let (rd, immediate) = upper(text)?;
    plain(Instruction::Lui { rd, immediate })
}

#[tactic(auto, unfolding(source_model::specs::Statement::add_upper))]
fn add_upper(text: &[u8]) -> Read<'_>
    ensures value { GivesExactly (λ x. (x.0, x.1.now)) result (statements.add_upper text.now) }
    ensures sound { IfOk result (λ x. IsStatement x.0) }
{
    let (rd, immediate) = upper(text)?;
    plain(Instruction::Auipc { rd, immediate })
}

#[tactic(auto, unfolding(source_model::specs::Statement::alone))]
fn alone<'a>(instruction: Instruction, text: &'a [u8]) -> Read<'a>
    requires { HasFields instruction }
    ensures value { GivesExactly (λ x. (x.0, x.1.now)) result (statements.alone instruction text.now) }
    ensures sound { IfOk result (λ x. IsStatement x.0) }
{
    if !trim(text).is_empty() {
        return Err(AsmErrorKind::Operand);
    }
    plain(instruction)
}

#[tactic(auto, unfolding(source_model::specs::Statement::load_immediate))]
fn load_immediate(text: &[u8]) -> Read<'_>
    ensures value { GivesExactly (λ x. (x.0, x.1.now)) result (statements.load_immediate text.now) }
    ensures sound { IfOk result (λ x. IsStatement x.0) }
{
    let (rd, name) = two_words(text)?;
    let rd = register_of(rd)?;
    let value = value_of(name)?;
    Ok((Statement::LoadImmediate { rd, value }, name))
}

#[tactic(auto, unfolding(source_model::specs::Statement::segment))]
fn segment(text: &[u8]) -> Read<'_>
    ensures value { GivesExactly (λ x. (x.0, x.1.now)) result (statements.segment text.now) }
    ensures sound { IfOk result (λ x. IsStatement x.0) }
{
    let (address, permission) = two_apart(text)?;
    let address = unsigned(0xffff_ffff, address)?;
    let permission = count(u64::from(GREATEST_PERMISSION), permission)? as u8;
    Ok((
        Statement::Segment {
            address,
            permission,
        },
        &[],
    ))
}

#[tactic(auto, unfolding(source_model::specs::Statement::dti2))]
fn dti2(text: &[u8]) -> Read<'_>
    ensures value { GivesExactly (λ x. (x.0, x.1.now)) result (statements.dti2 text.now) }
    ensures sound { IfOk result (λ x. IsStatement x.0) }
{
    if !trim(text).is_empty() {
        return Err(AsmErrorKind::Operand);
    }
    Ok((Statement::Dti2, &[]))
}

#[tactic(auto, unfolding(source_model::specs::Statement::entry))]
fn entry(text: &[u8]) -> Read<'_>
    ensures value { GivesExactly (λ x. (x.0, x.1.now)) result (statements.entry text.now) }
    ensures sound { IfOk result (λ x. IsStatement x.0) }
{
    let name = one_word(text)?;
    Ok((Statement::Entry(value_of(name)?), name))
}

#[tactic(auto, unfolding(source_model::specs::Statement::stack))]
fn stack(text: &[u8]) -> Read<'_>
    ensures value { GivesExactly (λ x. (x.0, x.1.now)) result (statements.stack text.now) }
    ensures sound { IfOk result (λ x. IsStatement x.0) }
{
    let name = one_word(text)?;
    Ok((Statement::Stack(value_of(name)?), name))
}

#[tactic(auto, unfolding(source_model::specs::Statement::word))]
fn word(text: &[u8]) -> Read<'_>
    ensures value { GivesExactly (λ x. (x.0, x.1.now)) result (statements.word text.now) }
    ensures sound { IfOk result (λ x. IsStatement x.0) }
{
    let name = one_word(text)?;
    Ok((Statement::Word(value_of(name)?), name))
}

#[tactic(auto, unfolding(source_model::specs::Statement::byte))]
fn byte(text: &[u8]) -> Read<'_>
    ensures value { GivesExactly (λ x. (x.0, x.1.now)) result (statements.byte text.now) }
    ensures sound { IfOk result (λ x. IsStatement x.0) }
{
    let number = one_word(text)?;
    Ok((Statement::Byte(unsigned(255, number)? as u8), &[]))
}

#[tactic(auto, unfolding(source_model::specs::Statement::zeros))]
fn zeros(text: &[u8]) -> Read<'_>
    ensures value { GivesExactly (λ x. (x.0, x.1.now)) result (statements.zeros text.now) }
    ensures sound { IfOk result (λ x. IsStatement x.0) }
{
    let number = one_word(text)?;
    Ok((Statement::Zero(count(1 << 32, number)?), &[]))
}

#[tactic(auto, unfolding(source_model::specs::Statement::operands))]
fn operands<'a>(mnemonic: Mnemonic, text: &'a [u8]) -> Read<'a>
    requires { IsMnemonic mnemonic }
    ensures value { GivesExactly (λ x. (x.0, x.1.now)) result (statements.operands mnemonic text.now) }
    ensures sound { IfOk result (λ x. IsStatement x.0) }
{
    match mnemonic {
        Mnemonic::Operate(operation) => operate(operation, text),
        Mnemonic::OperateImmediate(operation) => operate_immediate(operation, text),
        Mnemonic::ShiftImmediate(operation) => shift_immediate(operation, text),
        Mnemonic::Load(kind) => load(kind, text),
        Mnemonic::Store(width) => store(width, text),
        Mnemonic::Branch(comparison) => branch(comparison, text),
        Mnemonic::Jalr => jump_to_register(text),
        Mnemonic::Jal => jump(text),
        Mnemonic::Lui => load_upper(text),
        Mnemonic::Auipc => add_upper(text),
        Mnemonic::Alone(instruction) => alone(instruction, text),
        Mnemonic::LoadImmediate => load_immediate(text),
        Mnemonic::Segment => segment(text),
        Mnemonic::Dti2 => dti2(text),
        Mnemonic::Entry => entry(text),
        Mnemonic::Stack => stack(text),
        Mnemonic::Word => word(text),
        Mnemonic::Byte => byte(text),
        Mnemonic::Zero => zeros(text),
    }
}

/// The statement that a text is.
#[tactic(auto, unfolding(source_model::specs::Statement::statement_of))]
pub(crate) fn statement_of(text: &[u8]) -> Read<'_>
    ensures value { GivesExactly (λ x. (x.0, x.1.now)) result (statements.statement_of text.now) }
    ensures sound { IfOk result (λ x. IsStatement x.0) }
{
    let start = trim(text);
    if start.is_empty() {
        return Ok((Statement::Nothing, &[]));
    }
    let (name, rest) = cut(Class::Blank, start);
    operands(mnemonic_of(name)?, rest)
}
