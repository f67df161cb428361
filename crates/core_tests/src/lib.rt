//! Tests of what a run is made of: ends in memory and of the system, frames, tables, ledgers, switch, client, node, and their loops over a link.
//!
//! They stand in a crate of their own, since a crate with tests is proved twice.
#![tactic(auto)]

#[cfg(test)]
mod clients;
#[cfg(test)]
mod code;
#[cfg(test)]
mod frames;
#[cfg(test)]
mod ledgers;
#[cfg(test)]
mod links;
#[cfg(test)]
mod nodes;
#[cfg(test)]
mod outside;
#[cfg(test)]
mod serving;
#[cfg(test)]
mod switches;
#[cfg(test)]
mod tables;
