//! The world of a run: nodes, clients, a switch and the letters between them, event by event.
//!
//! Read [`World::event`], then `specs/Scene.antt` and `specs/Runs.antt`: an event of a world is the event of a run of each setting
//! to which the world belongs, as `event_run` defines it. Only a turn of a node that is not plain is more: it is of any live leg, or
//! passes over one (`specs/Turns.antt`). [`World::drain`] is the drain of `drain_run` (`specs/Drains.antt`). `specs/Letters.antt`
//! says which bytes a letter has.
#![tactic(auto)]

mod clients;
pub mod laws;
mod letter;
mod letters;
mod nodes;
mod sends;
mod world;

pub use letter::{Content, Letter, To};
pub use world::World;
