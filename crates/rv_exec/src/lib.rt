//! One instruction of RV32I over any bus (RISC-V Unprivileged ISA, RV32I base integer instruction set).
#![tactic(auto)]

mod arithmetic;
mod bus;
mod flat;
mod regs;
mod stepping;

pub use bus::{Bus, Fault, StoreFault};
pub use flat::{FlatInstruction, flat_of};
pub use regs::{Destination, RegisterFile, Regs};
pub use rv_decode::Width;
pub use stepping::{Stepped, perform, step};
