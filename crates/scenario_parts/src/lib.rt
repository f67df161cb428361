//! The nodes, the switch and the clients of an accepted scenario, each as it stands before the first event, for a world of all of
//! them or for a process that is one of them.
//!
//! Read [`part_of`], [`switch_of`] and [`client_of`]; `specs/Parts.antt`, `Switch` and `Clients` say how each stands. A scenario
//! is given by its built program and its plan.
#![tactic(auto)]

mod clients;
mod parts;
mod switch;

pub use clients::{client_of, clients_of, homes_of};
pub use parts::{part_of, parts_of};
pub use switch::{owners_of, switch_of};
