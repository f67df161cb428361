// A request of a client.

use pulse_base::RequestPlan;
use run_rules::Asking;

/// A request of a client, and how it stands.
#[derive(Debug, Drop)]
pub struct Request {
    pub plan: RequestPlan,
    pub asking: Asking,
}
