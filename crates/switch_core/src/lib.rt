//! The switch: it sends each frame on by the region of its next record, and takes no memory.
//!
//! Read [`Switch::on`]. Its rules are `run_rules/specs/Switch.antt`. Nothing here knows of sockets, letters or schedules.
#![tactic(auto)]

mod switch;

pub use run_rules::Out;
pub use switch::Switch;
