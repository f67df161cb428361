// What a client asks for.

use crate::listed::Listed;
use arrayvec::ArrayVec;

/// A request of a plan: its number, the iterator that walks, counted from 0, the client that asks, and the
/// iterator's arguments.
#[derive(Debug, Drop)]
pub struct RequestPlan {
    pub number: u32,
    pub iter: u16,
    pub client: u16,
    pub args: ArrayVec<u64, 8>,
}

/// The requests of a plan, in order.
pub type Requests = Listed<RequestPlan>;
