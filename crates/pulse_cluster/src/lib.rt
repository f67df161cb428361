//! A cluster: the nodes and the switch of a scenario as child programs, and its one client here.
//!
//! Read [`run_cluster`]; `specs/Cluster.antt` says what it starts, sends and waits for, and `Answer` what is answered of a text. That
//! the children run and what they answer is not said here.
#![tactic(auto)]

mod children;
mod cluster;
mod stops;

pub use cluster::run_cluster;
