// The clients of a run.

ghost use Rattle.std.specs.Prelude.{◌≡◌, ◌<◌, length, Some, IfSome};
ghost use Rattle.std.specs.Option.{option_map};
ghost use Rattle.run_rules.specs.Client as rule;
ghost use Rattle.client_core.specs.Calls.{AskedFits, TickedFits, HeardFits, LegFits, asks};
ghost use Rattle.world_core.specs.Scene.{asking_in, request_at};
ghost use Rattle.world_core.specs.inner.Clients.{HasAt, DoesAt, HearsAt};

use client_core::{Asked, Client, Heard, Ticked};
use frame_codec::{Back, Leg};
use pulse_base::Answer;
use std::marker::Model;

/// The clients, by their numbers. Contracts see their states.
#[derive(Drop)]
pub struct Clients {
    clients: Vec<Client>,
}

impl Model for Clients {
    ghost use Rattle.std.specs.Prelude.{List};
    ghost use Rattle.std.specs.Coded.{coded_list};
    ghost use Rattle.client_core.specs.Requests.{ClientState};
    ghost use Rattle.client_core.specs.contracts.client.Client.{the_row as client_row};

    ghost Value = { List ClientState };

    ghost coded = { coded_list client_row.coded };

    ghost view = { λ w. w.clients.items };
}

impl Clients {
    /// The clients of a list.
    pub fn of(clients: Vec<Client>) -> Clients
        ensures { result ≡ clients.items }
    {
        Clients { clients }
    }

    /// Asks a request of a client. No other client changes.
    pub fn ask(&mut self, c: usize, r: u32) -> Asked
        requires { HasAt self.old c r }
        ensures does { DoesAt self.old self.new c r (λ k. asks k) result }
        ensures fits { AskedFits result }
    {
        self.clients[c].ask(r)
    }

    /// A tick of a request of a client. No other client changes.
    pub fn tick(&mut self, c: usize, r: u32) -> Ticked
        requires { HasAt self.old c r }
        ensures does { DoesAt self.old self.new c r (λ k q. rule.tick k.terms q.asking) result }
        ensures fits { TickedFits result }
    {
        self.clients[c].tick(r)
    }

    /// A client hears a back. No other client changes.
    pub fn hear(&mut self, c: usize, back: &Back) -> Heard
        requires { c < length self.old }
        ensures hears { HearsAt self.old self.new c back.now result }
        ensures fits { HeardFits result }
    {
        self.clients[c].on(back)
    }

    /// The current leg of a request of a client; none where it is not asked or is answered.
    pub fn resend(&self, c: usize, r: u32) -> Option<Leg>
        requires { HasAt self.now c r }
        ensures leg { result ≡ rule.resend (asking_in (request_at self.now c r)) }
        ensures fits { IfSome result LegFits }
    {
        self.clients[c].resend(r)
    }

    /// The answer of a request of a client.
    pub fn answer(&self, c: usize, r: u32) -> &Answer
        requires { HasAt self.now c r }
        ensures { option_map (λ q. rule.answer_of q.asking) (request_at self.now c r) ≡ Some result.now }
    {
        self.clients[c].answer(r)
    }
}
