ghost use Rattle.std.specs.Prelude.{◌≡◌, ◌<◌, ◌≤◌, ◌+◌, ◌*◌, ◌%◌, ◌^◌, ◌++◌, replicate, Some, false, length, vec_len, OnOk, IfOk, IfErr, Ok, Err};
ghost use Rattle.image_file.specs.View.{segment_views};
ghost use Rattle.image_model.specs.Image.{AreSegments};
ghost use Rattle.instruction_model.specs.Form.{HasFields, IsSigned};
ghost use Rattle.rv_asm.specs.Sound.{IsStatement, IsNear};
ghost use Rattle.rv_asm.specs.View.{draft_view};
ghost use Rattle.source_model.specs.Layout.{is_out_of_place as cannot_stand, address_in as address};
ghost use Rattle.source_model.specs.Reading as sources;

use crate::labels::START;
use crate::layout::{address_in, after, size_of};
use image_file::{Image, Segment, permission_of};
use rv_decode::{Instr, encode};
use source_model::{Instruction, Layout, Operation, Statement, Value};
use std::alloc::{AllocError, Global};

/// The image as far as the lines have come.
#[derive(Drop)]
pub(crate) struct Draft {
    pub(crate) layout: Layout,
    /// The address, permission and bytes of the segment that began last.
    base: u32,
    permission: u8,
    content: Vec<u8>,
    /// The segments before it that have bytes.
    segments: Vec<Segment>,
    /// The address of the first segment.
    first: Option<u32>,
    /// What `.entry` gave.
    entry: Option<u32>,
    stack: u32,
    /// How many bytes the image's file has.
    size: u64,
}

/// What a statement's value is written as, 0 where it has none.
pub(crate) fn operand_of(statement: Statement) -> Value
    ensures { result ≡ sources.operand_of statement }
{
    match statement {
        Statement::Branch { target, .. } => target,
        Statement::Jump { target, .. } => target,
        Statement::LoadImmediate { value, .. } => value,
        Statement::Entry(value) => value,
        Statement::Stack(value) => value,
        Statement::Word(value) => value,
        _ => Value::Number(0),
    }
}

// From an address to a target, modulo 2^32.
fn distance(here: u32, target: u32) -> u32
    ensures { result ≡ sources.distance here target }
{
    target.wrapping_sub(here)
}

fn is_out_of_reach(reach: u32, distance: u32) -> bool
    requires { reach ≤ 2 ^ 20 }
    ensures { result ≡ sources.is_out_of_reach reach distance }
{
    distance % 2 != 0 || distance.wrapping_add(reach) >= 2 * reach
}

/// Whether a statement's target is odd or too far.
pub(crate) fn is_too_far(here: u32, statement: Statement, value: Option<u32>) -> bool
    ensures { result ≡ sources.is_too_far here statement value }
{
    let Some(target) = value else {
        return false;
    };
    match statement {
        Statement::Branch { .. } => is_out_of_reach(1 << 12, distance(here, target)),
        Statement::Jump { .. } => is_out_of_reach(1 << 20, distance(here, target)),
        _ => false,
    }
}

pub(crate) fn put_instruction(
    content: &mut Vec<u8>,
    instruction: Instruction,
) -> Result<(), AllocError>
    requires { HasFields instruction }
    ensures { OnOk result (content.new.items ≡ content.old.items ++ sources.instruction_bytes instruction) }
{
    let word = encode(Instr::new(instruction));
    content.extend_from_slice(&word.to_le_bytes())
}

// The nearest multiple of 4,096 that is at most 2,048 above, modulo 2^32.
fn upper_part(value: u32) -> u32
    ensures value { result ≡ sources.upper_part value }
    ensures low { result % 2 ^ 12 ≡ 0 }
{
    ((u64::from(value) + 0x800) / 0x1000 % 0x10_0000 * 0x1000) as u32
}

// What is left of it, from -2,048 to 2,047.
fn lower_part(value: u32) -> u32
    ensures value { result ≡ sources.lower_part value }
    ensures signed { IsSigned 12 result }
{
    let low = value % 0x1000;
    if low < 0x800 { low } else { low + 0xffff_f000 }
}

fn put_loads(content: &mut Vec<u8>, rd: u8, value: u32) -> Result<(), AllocError>
    requires { rd < 32 }
    ensures { OnOk result (content.new.items ≡ content.old.items ++ (sources.instruction_bytes (Instruction.Lui rd (sources.upper_part value)) ++ sources.instruction_bytes (Instruction.OperateImmediate Operation.Add rd rd (sources.lower_part value)))) }
{
    let immediate = upper_part(value);
    put_instruction(content, Instruction::Lui { rd, immediate })?;
    let (operation, immediate) = (Operation::Add, lower_part(value));
    put_instruction(
        content,
        Instruction::OperateImmediate {
            operation,
            rd,
            rs1: rd,
            immediate,
        },
    )
}

fn put_zeros(content: &mut Vec<u8>, count: u64) -> Result<(), AllocError>
    requires { count ≤ 2 ^ 32 + 1 }
    ensures { OnOk result (content.new.items ≡ content.old.items ++ replicate count 0) }
{
    content.resize(content.len() + count as usize, 0)
}

// Puts the bytes of a statement with this value at this address behind the others.
fn put(content: &mut Vec<u8>, here: u32, statement: Statement, value: u32) -> Result<(), AllocError>
    requires sound { IsStatement statement }
    requires reach { sources.is_too_far here statement (Some value) ≡ false }
    ensures { OnOk result (content.new.items ≡ content.old.items ++ sources.bytes_of here statement value) }
{
    match statement {
        Statement::Plain(instruction) => put_instruction(content, instruction),
        Statement::Branch {
            comparison,
            rs1,
            rs2,
            ..
        } => {
            let immediate = distance(here, value);
            put_instruction(
                content,
                Instruction::Branch {
                    comparison,
                    rs1,
                    rs2,
                    immediate,
                },
            )
        }
        Statement::Jump { rd, .. } => {
            let immediate = distance(here, value);
            put_instruction(content, Instruction::Jal { rd, immediate })
        }
        Statement::LoadImmediate { rd, .. } => put_loads(content, rd, value),
        Statement::Word(_) => content.extend_from_slice(&value.to_le_bytes()),
        Statement::Byte(byte) => Ok(content.push(byte)?),
        Statement::Zero(count) => put_zeros(content, count),
        _ => Ok(()),
    }
}

// The segments and, where it has bytes, the one that began last.
fn all_segments(
    base: u32,
    permission: u8,
    content: Vec<u8>,
    segments: Vec<Segment>,
) -> Result<Vec<Segment>, AllocError>
    ensures { IfOk result (λ v. segment_views v.items ≡ sources.all_segments base permission content.items (segment_views segments.items)) }
{
    let mut segments = segments;
    if !content.is_empty() {
        segments.push(Segment {
            addr: base,
            perm: permission,
            bytes: content,
            zeros: 0,
        })?;
    }
    Ok(segments)
}

/// The size of the file with so many bytes more: a segment's first byte brings nine with it.
pub(crate) fn size_with(draft: &Draft, count: u64) -> u64
    requires room { draft.now.size ≤ 16777216 }
    requires small { count ≤ 2 ^ 32 + 1 }
    ensures { result ≡ sources.size_with (draft_view draft.now) count }
{
    if count == 0 {
        draft.size
    } else if draft.content.is_empty() {
        draft.size + count + 9
    } else {
        draft.size + count
    }
}

// The draft with a statement that has bytes, or neither bytes nor another effect.
fn with_bytes(draft: Draft, statement: Statement, value: u32) -> Result<Draft, AllocError>
    requires near { IsNear draft.layout }
    requires room { draft.size ≤ 16777216 }
    requires sound { IsStatement statement }
    requires reach { sources.is_too_far (address draft.layout.reached) statement (Some value) ≡ false }
    requires place { cannot_stand draft.layout statement ≡ false }
    ensures value { IfOk result (λ d. draft_view d ≡ sources.with_bytes (draft_view draft) statement value) }
    ensures near { IfOk result (λ d. IsNear d.layout) }
{
    let mut draft = draft;
    let here = address_in(draft.layout.reached);
    let size = size_with(&draft, size_of(statement));
    put(&mut draft.content, here, statement, value)?;
    draft.size = size;
    draft.layout = after(draft.layout, statement);
    Ok(draft)
}

// The draft with a segment that begins.
fn begin(alloc: Global, draft: Draft, address: u32, permission: u8) -> Result<Draft, AllocError>
    requires near { IsNear draft.layout }
    requires place { cannot_stand draft.layout (Statement.Segment address permission) ≡ false }
    ensures value { IfOk result (λ d. draft_view d ≡ sources.draft_with (draft_view draft) (Statement.Segment address permission) 0) }
    ensures near { IfOk result (λ d. IsNear d.layout) }
{
    let given = permission_of(draft.layout.format, permission);
    let layout = after(
        draft.layout,
        Statement::Segment {
            address,
            permission,
        },
    );
    let first = match draft.first {
        Some(first) => first,
        None => address,
    };
    let Draft {
        base,
        permission: before,
        content,
        segments,
        entry,
        stack,
        size,
        ..
    } = draft;
    Ok(Draft {
        layout,
        base: address,
        permission: given,
        content: Vec::new(alloc),
        segments: all_segments(base, before, content, segments)?,
        first: Some(first),
        entry,
        stack,
        size,
    })
}

/// The draft with a statement of this value.
pub(crate) fn draft_with(
    alloc: Global,
    draft: Draft,
    statement: Statement,
    value: u32,
) -> Result<Draft, AllocError>
    requires near { IsNear draft.layout }
    requires room { draft.size ≤ 16777216 }
    requires sound { IsStatement statement }
    requires reach { sources.is_too_far (address draft.layout.reached) statement (Some value) ≡ false }
    requires place { cannot_stand draft.layout statement ≡ false }
    ensures value { IfOk result (λ d. draft_view d ≡ sources.draft_with (draft_view draft) statement value) }
    ensures near { IfOk result (λ d. IsNear d.layout) }
{
    let mut draft = draft;
    match statement {
        Statement::Segment {
            address,
            permission,
        } => begin(alloc, draft, address, permission),
        Statement::Dti2 => {
            draft.layout = after(draft.layout, statement);
            Ok(draft)
        }
        Statement::Entry(_) => {
            draft.entry = Some(value);
            Ok(draft)
        }
        Statement::Stack(_) => {
            draft.stack = value;
            Ok(draft)
        }
        _ => with_bytes(draft, statement, value),
    }
}

/// The draft before the first line.
pub(crate) fn blank(alloc: Global) -> Draft
    ensures { draft_view result ≡ sources.blank }
{
    Draft {
        layout: START,
        base: 0,
        permission: 0,
        content: Vec::new(alloc),
        segments: Vec::new(alloc),
        first: None,
        entry: None,
        stack: 0,
        size: 14,
    }
}

/// The image of a draft with every line.
pub(crate) fn draft_image(draft: Draft) -> Result<Image, AllocError>
    requires count { length (sources.all_segments draft.base draft.permission draft.content.items (segment_views draft.segments.items)) ≤ 64 }
    requires sound { AreSegments 0 (sources.all_segments draft.base draft.permission draft.content.items (segment_views draft.segments.items)) }
    ensures { IfOk result (λ i. i ≡ sources.draft_image (draft_view draft)) }
{
    let Draft {
        base,
        permission,
        content,
        segments,
        first,
        entry,
        stack,
        ..
    } = draft;
    let segments = all_segments(base, permission, content, segments)?;
    let start = match (entry, first) {
        (Some(entry), _) => entry,
        (None, Some(first)) => first,
        (None, None) => 0,
    };
    Ok(Image::new(start, stack, segments))
}
