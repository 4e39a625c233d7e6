ghost use Rattle.std.specs.Prelude.{◌≡◌, ◌≤◌, ◌^◌, ◌+◌, false};
ghost use Rattle.rv_asm.specs.Sound.{IsStatement, IsNear};
ghost use Rattle.source_model.specs.Layout as layouts;

use crate::line::statement_in;
use image_file::greatest_byte;
use memory_model::PAGE_SIZE;
use source_model::{Format, Layout, Statement};

/// How many bytes a statement has.
pub(crate) fn size_of(statement: Statement) -> u64
    requires { IsStatement statement }
    ensures value { result ≡ layouts.size_of statement }
    ensures small { result ≤ 2 ^ 32 + 1 }
{
    match statement {
        Statement::Nothing => 0,
        Statement::Plain(_) => 4,
        Statement::Branch { .. } => 4,
        Statement::Jump { .. } => 4,
        Statement::LoadImmediate { .. } => 8,
        Statement::Segment { .. } => 0,
        Statement::Dti2 => 0,
        Statement::Entry(_) => 0,
        Statement::Stack(_) => 0,
        Statement::Word(_) => 4,
        Statement::Byte(_) => 1,
        Statement::Zero(count) => count,
    }
}

/// The address reached, modulo 2^32, 0 where no segment has begun.
pub(crate) fn address_in(reached: Option<u64>) -> u32
    ensures { result ≡ layouts.address_in reached }
{
    match reached {
        None => 0,
        Some(address) => (address % (1 << 32)) as u32,
    }
}

fn bytes_out_of_place(here: Layout, count: u64) -> bool
    requires near { IsNear here }
    requires small { count ≤ 2 ^ 32 + 1 }
    ensures { result ≡ layouts.bytes_out_of_place here.reached count }
{
    match here.reached {
        None => count > 0,
        Some(address) => count > 0 && address + count > 1 << 32,
    }
}

fn segment_out_of_place(here: Layout, address: u32, permission: u8) -> bool
    ensures { result ≡ layouts.segment_out_of_place here address permission }
{
    permission > greatest_byte(here.format)
        || u64::from(address / PAGE_SIZE * PAGE_SIZE) < here.used
        || here.begun >= 64
}

/// Whether a statement's bytes, its segment or its format cannot stand here.
pub(crate) fn is_out_of_place(here: Layout, statement: Statement) -> bool
    requires near { IsNear here }
    requires sound { IsStatement statement }
    ensures { result ≡ layouts.is_out_of_place here statement }
{
    match statement {
        Statement::Segment {
            address,
            permission,
        } => segment_out_of_place(here, address, permission),
        Statement::Dti2 => here.begun > 0,
        _ => bytes_out_of_place(here, size_of(statement)),
    }
}

fn further(here: Layout, count: u64) -> Layout
    requires near { IsNear here }
    requires small { count ≤ 2 ^ 32 + 1 }
    ensures { result ≡ layouts.further here.reached here count }
{
    match here.reached {
        None => here,
        Some(_) if count == 0 => here,
        Some(address) => Layout {
            reached: Some(address + count),
            used: address + count,
            ..here
        },
    }
}

/// How far the lines have come with a statement that can stand here.
pub(crate) fn after(here: Layout, statement: Statement) -> Layout
    requires near { IsNear here }
    requires sound { IsStatement statement }
    requires place { layouts.is_out_of_place here statement ≡ false }
    ensures value { result ≡ layouts.after here statement }
    ensures near { IsNear result }
{
    match statement {
        Statement::Segment { address, .. } => Layout {
            reached: Some(u64::from(address)),
            begun: here.begun + 1,
            ..here
        },
        Statement::Dti2 => Layout {
            format: Format::Dti2,
            ..here
        },
        _ => further(here, size_of(statement)),
    }
}

/// How far the lines have come with this one.
#[tactic(auto, unfolding(source_model::specs::Layout::next))]
pub(crate) fn next(here: Layout, line: &[u8]) -> Layout
    requires { IsNear here }
    ensures value { result ≡ layouts.next here line.now }
    ensures near { IsNear result }
{
    match statement_in(line) {
        Err(_) => here,
        Ok((statement, _)) if is_out_of_place(here, statement) => here,
        Ok((statement, _)) => after(here, statement),
    }
}
