//! The outside: where bytes come from and where they go. An object in memory tells what it holds, and
//! contracts speak of it; a real one does not tell, and counts its faults alone.
#![tactic(auto)]

mod answered;
mod calls;
mod desk;
mod desk_call;
mod desk_log;
mod dir_fault;
mod failed;
mod files;
mod folder;
mod key_dir;
mod memory_desk;
mod memory_dir;
mod memory_link;
mod memory_sink;
mod memory_source;
mod pair;
mod place;
mod readings;
mod real_sink;
mod real_source;
mod sink;
mod source;
mod stream;

pub use answered::{Answered, Scope, Who};
pub use desk::Desk;
pub use desk_call::DeskCall;
pub use dir_fault::DirFault;
pub use failed::Failed;
pub use folder::Folder;
pub use key_dir::KeyDir;
pub use memory_desk::MemoryDesk;
pub use memory_dir::MemoryDir;
pub use memory_link::MemoryLink;
pub use memory_sink::MemorySink;
pub use memory_source::MemorySource;
pub use pair::Pair;
pub use place::{Gate, Open, Place};
pub use real_sink::RealSink;
pub use real_source::RealSource;
pub use sink::{Sink, write_all};
pub use source::Source;
pub use stream::Stream;
