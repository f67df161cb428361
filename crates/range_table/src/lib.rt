//! Regions of memory with their permissions, and the region that holds a span of bytes.
//!
//! Read `specs/Memory.antt` first: it says which region holds a span, and what a walk meets that arrives
//! at one. A [`Table`] is made of a list of regions once, and answers [`Table::find`] by a search that
//! halves the regions at each step.
#![tactic(auto)]

mod fault;
mod order;
mod region;
mod table;

pub use fault::{MEMORY_END, TableFault};
pub use region::{RegionSpan, Regions};
pub use table::{MOST_REGIONS, Table};
