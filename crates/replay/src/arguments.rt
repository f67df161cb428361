// The arguments of requests.

ghost use Rattle.std.specs.Prelude.{◌<◌, ◌^◌, All};

use pulse_base::RequestPlan;

// Each item is a number of 64 bits.
fn numbers_fit(numbers: &[u64])
    ensures { All (λ v. v < 2 ^ 64) numbers.now }
{
    let _count = numbers.len();
}

/// Each argument is a number of 64 bits.
pub(crate) fn arguments_fit(requests: &[RequestPlan])
    ensures { All (λ q. All (λ v. v < 2 ^ 64) q.args.items) requests.now }
{
    'requests: for request in requests {
        numbers_fit(request.args.as_slice());
    }
}
