//! The processes of a scenario: a node, the switch or a client of it, each bound to its own port of a link.
//!
//! Read [`run_node`], [`run_switch`] and [`run_ask`]. `specs/Node.antt`, `Switch` and `Ask` say what each leaves and tells: its
//! served run, from its part of the scenario on. `Answer` says what is answered of a text. A document of port p has its switch at
//! p, node n at p + 1 + n and client c at p + 65 + c.
#![tactic(auto)]

mod ask;
mod document;
mod fault;
mod node;
mod switch;
mod told;

pub use ask::{ask_bound, client_text, run_ask};
pub use document::read_scenario;
pub use fault::{FormLimit, ProcessFault};
pub use node::run_node;
pub use switch::run_switch;
pub use told::{Told, finished};
