//! Tests of the processes of nodes, switch and client, each over a link in memory, and of a report with every part.
//!
//! They stand in a crate of their own, since a crate with tests is proved twice.
#![tactic(auto)]

#[cfg(test)]
mod clusters;
#[cfg(test)]
mod documents;
#[cfg(test)]
mod processes;
#[cfg(test)]
mod reports;
