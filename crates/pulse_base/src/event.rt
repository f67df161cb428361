// The events of a run, and what each did.

use crate::listed::Listed;

/// One event of an order.
#[derive(Clone, Copy, Debug, PartialEq, Eq)]
pub enum Event {
    /// The request with this number is asked.
    Ask(u32),
    /// A tick of the request with this number.
    Tick(u32),
    /// The letter with this number is delivered.
    Deliver(u32),
    /// A turn of the node with this number.
    Turn(u32),
}

/// An order of events.
pub type Events = Listed<Event>;

/// What one event did. Letters are counted from 0 in the order in which they are sent.
#[derive(Clone, Copy, Debug, PartialEq, Eq)]
pub enum Trace {
    /// The letter with this number was sent: by an ask, a tick, the switch, a node or a client.
    Sent(u32),
    /// The request has its answer now.
    Answered,
    /// An ask of a request that was asked before.
    Again,
    /// A tick that gave the request up.
    Silent,
    /// A tick of a request that is not asked or is answered, or a letter of which the switch sends nothing on.
    Nothing,
    /// A delivery of a letter that is not sent yet.
    Missed,
    /// A leg became live at its node.
    Started,
    /// A leg was live at its node already.
    Running,
    /// All slots of the node were live.
    Full,
    /// A leg of a program or of a pad that the node does not have.
    Foreign,
    /// A back that its client passes over.
    Stale,
    /// A turn of a node with no live leg.
    Idle,
    /// A turn ran an iteration of this request; where that ended its leg, the letter with the number `sent` was sent.
    Iterated { request: u32, sent: Option<u32> },
    /// A turn ran a part of an iteration of this request.
    Part(u32),
    /// A turn passed over this request, which waits for another.
    Waits(u32),
}

/// What each event of an order did, in order.
pub type Traces = Listed<Trace>;
