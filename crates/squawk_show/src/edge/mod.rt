//! The edge of the program: where bytes come from, and where they go.
pub mod memory_sink;
pub mod memory_source;
pub mod read_write;
pub mod sink;
pub mod source;

pub use memory_sink::MemorySink;
pub use memory_source::MemorySource;
pub use read_write::{ReadSource, WriteSink};
pub use sink::Sink;
pub use source::{Failed, Source};
