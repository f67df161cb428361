// A letter.

use frame_codec::{Back, Ending, Leg};

/// Where a letter goes.
#[derive(Clone, Copy, Debug, PartialEq, Eq)]
pub enum To {
    Switch,
    /// The node of this number.
    Node(u16),
    /// The client of this number.
    Client(u16),
}

/// What a letter carries: the frame of a leg or of a back.
#[derive(Clone, Copy, Debug, PartialEq, Eq)]
pub enum Content {
    Leg(Leg),
    Back(Back),
}

/// A leg or a back that was sent, and where it goes.
#[derive(Clone, Copy, Debug, PartialEq, Eq)]
pub struct Letter {
    pub to: To,
    pub content: Content,
}

// All of a letter but its pad, and where its bytes lie among those of all letters: its frame from `start` to `end`, its
// pad from `pad_start` on. A leg has no ending.
#[derive(Clone, Copy)]
pub struct Note {
    pub to: To,
    pub client: u16,
    pub request: u32,
    pub leg: u32,
    pub program: u16,
    pub left: u16,
    pub cur: u64,
    pub ending: Option<Ending>,
    pub start: usize,
    pub pad_start: usize,
    pub end: usize,
}
