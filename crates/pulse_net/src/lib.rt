//! Links and spawners: in memory, where each call is told, and over this machine's sockets and programs.
//!
//! Read [`MemLink`] first: it hands out the items that it was made of and records what each call did. [`UdpLink`] is
//! the same trait over a real socket, and tells nothing of content. So it is with [`MemSpawner`] and [`Children`].
//! Nothing here knows what a frame says.
#![tactic(auto)]

mod children;
mod item;
mod mem_link;
mod mem_spawner;
mod start;
mod udp_link;

pub use children::Children;
pub use item::{Item, Items, Sent};
pub use mem_link::MemLink;
pub use mem_spawner::MemSpawner;
pub use start::Start;
pub use udp_link::UdpLink;
