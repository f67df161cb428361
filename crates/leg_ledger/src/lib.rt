//! The legs that a node has entered, and the replies that it keeps.
//!
//! Read `specs/Legs.antt` first: contracts see a ledger as a finite map from keys to what is known of
//! their legs. A key is entered once and finished once; the reply that is then kept never changes. Nothing
//! here knows why a node keeps replies.
#![tactic(auto)]

mod ledger;
mod leg;

pub use ledger::{Entering, Ledger};
pub use leg::{LegKey, LegState, Reply};
