//! The outside world as traits: where files come from and how they are read, where bytes go, and who is told of a worker's events.
//! In memory they tell all that they hold; over real files and streams they tell nothing but how often they failed.
#![tactic(auto)]

mod calls;
mod file_reader;
mod gate;
mod loader;
mod memory_loader;
mod memory_sink;
mod real_loader;
mod real_sink;
mod request;
mod sink;
mod sure_sink;
mod system_files;
mod writing;

pub use file_reader::FileReader;
pub use gate::{Gate, GateEvent, OpenGate};
pub use loader::{LoadError, Loader};
pub use memory_loader::MemLoader;
pub use memory_sink::MemSink;
pub use real_loader::FileLoader;
pub use real_sink::StdSink;
pub use sink::{Sink, SinkError};
pub use sure_sink::SureSink;
pub use system_files::SystemFiles;
pub use writing::write_all;
