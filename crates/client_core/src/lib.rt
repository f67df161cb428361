//! The client: it asks its requests, sends their legs again, and hears the backs.
//!
//! Read [`Client`]. What it does with one request are the rules of `run_rules/specs/Client.antt`; `specs/Requests.antt`
//! says what a client is and how a rule is done to one of its requests, `specs/Begins.antt` how the run of init begins
//! a walk, `specs/Calls.antt` what the calls are held to. `specs/inner` is for the proofs alone. Nothing here knows of
//! sockets, letters or schedules.
#![tactic(auto)]

mod client;
mod request;
mod rules;

pub use client::Client;
pub use request::Request;
pub use run_rules::{Asked, Heard, Terms, Ticked};
