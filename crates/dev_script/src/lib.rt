//! Scripts, which say what the devices of a root give it, and the devices.
#![tactic(auto)]

mod console;
mod devices;
mod fault;
mod feeds;
mod item;
mod reading;
mod same;
mod words;

pub use console::Console;
pub use devices::Devices;
pub use fault::ScriptFault;
pub use feeds::{ByteFeed, NumberFeed};
pub use reading::read_script;
pub use script_model::ScriptError;
