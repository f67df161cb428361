//! The loops of the processes: a node, the switch and a client, each over a link.
//!
//! Read [`Served`], then [`serve_switch`]. What a loop does with the items that it takes is its *served run*,
//! `specs/Runs.antt` with `SwitchRun`, `NodeRun` and `ClientRun` beside it: the rules of `run_rules`, one turn for each
//! item. Nothing here knows of sockets or commands.
#![tactic(auto)]

mod client_loop;
mod frames;
mod node_loop;
mod served;
mod switch_loop;

pub use client_loop::ask_all;
pub use frames::post;
pub use node_loop::serve_node;
pub use served::Served;
pub use switch_loop::serve_switch;
