// The clients of a scenario.

ghost use Rattle.std.specs.Prelude.{◌≡◌, ◌≤◌, length, map, IfOk};
ghost use Rattle.scenario_text.specs.Accepted.{IsRunnable};
ghost use Rattle.scenario_parts.specs.Clients.{first_client, first_clients, requests_by};

use arrayvec::ArrayVec;
use client_core::Client;
use code_image::Images;
use pulse_base::{Memory, Numbers, RequestPlan, Requests};
use pulse_codegen::Built;
use scenario_text::Plan;
use std::alloc::Global;

/// The client of each request.
pub fn homes_of(alloc: Global, requests: &[RequestPlan]) -> Result<Numbers, Memory>
    ensures { IfOk result (λ homes. homes ≡ map (λ q. q.client) requests.now) }
{
    let mut homes = Numbers::new(alloc);
    'homes: for request in requests {
        homes.push(u32::from(request.client))?;
    }
    Ok(homes)
}

// The arguments of a request once more.
fn copy_of_args(args: &[u64]) -> ArrayVec<u64, 8>
    requires { length args.now ≤ 8 }
    ensures { result.items ≡ args.now }
{
    match ArrayVec::try_from(args) {
        Ok(args) => args,
        Err(_) => unreachable!(),
    }
}

// A request once more.
fn copy_of(request: &RequestPlan) -> RequestPlan
    ensures { result ≡ request.now }
{
    RequestPlan {
        number: request.number,
        iter: request.iter,
        client: request.client,
        args: copy_of_args(request.args.as_slice()),
    }
}

// The requests of one client.
fn requests_by(alloc: Global, client: u16, requests: &[RequestPlan]) -> Result<Requests, Memory>
    ensures { IfOk result (λ own. own ≡ requests_by client requests.now) }
{
    let mut own = Requests::new(alloc);
    'requests: for request in requests {
        if request.client == client {
            own.push(copy_of(request))?;
        }
    }
    Ok(own)
}

/// A client of a scenario, with its requests.
pub fn client_of(alloc: Global, built: &Built, plan: &Plan, client: u16) -> Result<Client, Memory>
    requires { IsRunnable (record { checked = (built.now).checked; plan = plan.now }) }
    ensures { IfOk result (λ c. c ≡ first_client plan.now (built.now).images client) }
{
    let images = built.copy_images(alloc)?;
    let requests = requests_by(alloc, client, plan.requests.as_slice())?;
    Client::make(
        alloc,
        client,
        images,
        requests,
        plan.budget,
        plan.rounds,
        plan.tries,
    )
}

/// The clients of a scenario, by their numbers.
pub fn clients_of(alloc: Global, built: &Built, plan: &Plan) -> Result<Vec<Client>, Memory>
    requires { IsRunnable (record { checked = (built.now).checked; plan = plan.now }) }
    ensures { IfOk result (λ clients. clients.items ≡ first_clients plan.now (built.now).images 0 (plan.now).clients) }
{
    let mut clients = Vec::new(alloc);
    'clients: for client in 0..plan.clients {
        match clients.push(client_of(alloc, built, plan, client)?) {
            Ok(()) => {}
            Err(_) => return Err(Memory),
        }
    }
    Ok(clients)
}
