//! The memory of a space: bytes of 2^32 addresses and permissions of 2^20 pages, kept by a page table.
#![tactic(auto)]

mod bus;
mod byte_string;
mod copying;
mod filling;
mod freezing;
mod layout;
mod memory;
mod owning;
mod ranges;
mod reading;
mod rights;
mod same;
mod sharing;
mod table;
mod taking;
mod writing;

pub use layout::Pages;
pub use memory::Mem;
pub use taking::TakenPage;
