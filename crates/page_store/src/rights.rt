ghost use Rattle.std.specs.Prelude.{◌≡◌, ◌/◌, ◌%◌, ◌==◌};

// The bits of a permission (RISC-V Privileged ISA, the R, W and X bits of a page table entry).
const READ: u8 = 1;

const WRITE: u8 = 2;

const EXECUTE: u8 = 4;

/// Whether a page of this permission may be read.
#[inline(always)]
pub fn may_read(permission: u8) -> bool
    ensures { result ≡ (permission % 2 == 1) }
{
    permission / READ % 2 == 1
}

/// Whether a page of this permission may be written.
#[inline(always)]
pub fn may_write(permission: u8) -> bool
    ensures { result ≡ (permission / 2 % 2 == 1) }
{
    permission / WRITE % 2 == 1
}

/// Whether a page of this permission may be executed, which is to fetch instructions from it.
#[inline(always)]
pub fn may_execute(permission: u8) -> bool
    ensures { result ≡ (permission / 4 % 2 == 1) }
{
    permission / EXECUTE % 2 == 1
}
