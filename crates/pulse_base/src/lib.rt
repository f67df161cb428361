//! What every crate of PULSE stands on: lists, pads, the names of answers, faults and statuses, and the
//! traits of the outside with their ends in memory and over the standard streams.
//!
//! Read [`Listed`] first: each list in a public type is one of these, and contracts see it as a list. Then
//! [`Source`] and [`Sink`]: they count their faults, and may tell what they hold. Nothing here knows of
//! programs, nodes or frames.
#![tactic(auto)]

mod answer;
mod event;
mod link;
mod listed;
mod mem_sink;
mod mem_source;
mod pad_bytes;
mod plan;
mod reading;
mod sink;
mod source;
mod spawner;
mod status;
mod streams;

pub use answer::{Answer, Cause, FaultKind};
pub use event::{Event, Events, Trace, Traces};
pub use link::{Got, Link};
pub use listed::{Answers, Bytes, Listed, Memory, Numbers};
pub use mem_sink::MemSink;
pub use mem_source::MemSource;
pub use pad_bytes::PadBytes;
pub use plan::{RequestPlan, Requests};
pub use reading::{ReadAll, read_all};
pub use sink::{Sink, write_all};
pub use source::{Failed, Source};
pub use spawner::{Kid, Spawner};
pub use status::Status;
pub use streams::{ReaderSource, WriterSink};
