// The client.

ghost use Rattle.std.specs.Prelude.{◌≡◌, ◌<◌, ◌≤◌, ◌↔◌, length, slice_get, Some, IfOk, IfSome, IsTrue};
ghost use Rattle.std.specs.Option.{option_map};
ghost use Rattle.run_rules.specs.Client as rule;
ghost use Rattle.client_core.specs.Requests.{Has, ArePlans, find, new_client};
ghost use Rattle.client_core.specs.Calls.{AskedFits, TickedFits, HeardFits, Does, Hears, LegFits, asks};
ghost use Rattle.client_core.specs.inner.View.{IsPlaceOf};

use crate::request::Request;
use code_image::Images;
use frame_codec::{Back, Leg};
use indexmap::IndexMap;
use pulse_base::{Answer, Memory, RequestPlan, Requests};
use run_rules::{Asked, Asking, Heard, Terms, Ticked};
use std::alloc::Global;
use std::marker::Model;

/// The requests of a client, by their numbers. Contracts see what they share, the images of the programs, and the
/// requests in the order of the list that `make` was given. A call finds its request by one look-up in a hash map, so it
/// costs the same for one request as for a thousand; `make` alone takes memory.
#[derive(Drop)]
pub struct Client {
    terms: Terms,
    images: Images,
    requests: IndexMap<u32, Request>,
    // The answers of requests that have none: `answer` lends them.
    unasked: Answer,
    waiting: Answer,
}

impl Model for Client {
    ghost use Rattle.std.specs.Coded.{codes};
    ghost use Rattle.indexmap.specs.IndexMap.{values};
    ghost use Rattle.run_rules.specs.contracts.client.Terms.{the_row as terms_row};
    ghost use Rattle.code_image.specs.contracts.image.Image.{the_row as image_row};
    ghost use Rattle.client_core.specs.contracts.request.Request.{the_row as request_row};
    ghost use Rattle.client_core.specs.Requests.{ClientState};
    ghost use Rattle.client_core.specs.inner.View.{IsClient};

    ghost Value = { ClientState };

    ghost coded = { Prim.hlevel (codes, terms_row.coded, image_row.coded, request_row.coded) };

    ghost view = { λ c. record { terms = c.terms; images = c.images; requests = values c.requests } };

    ghost invariant = { λ c. IsClient c.terms c.images c.requests.entries c.unasked c.waiting };
}

impl Client {
    /// A client of these requests, none of which is asked. The requests, of which there may be none, are all this
    /// client's; their numbers differ, and each names one of the images and has as many arguments as it takes. Want of
    /// memory is the only refusal.
    pub fn make(
        alloc: Global,
        client: u16,
        images: Images,
        requests: Requests,
        budget: u16,
        rounds: u16,
        tries: u16,
    ) -> Result<Client, Memory>
        requires plans { ArePlans client images requests }
        requires budget { 1 ≤ budget }
        requires rounds { 1 ≤ rounds }
        ensures { IfOk result (λ c. c ≡ new_client (record { client = client; budget = budget; rounds = rounds; tries = tries }) images requests) }
    {
        let terms = Terms {
            client,
            budget,
            rounds,
            tries,
        };
        let mut found = IndexMap::new(alloc);
        for plan in requests.into_vec() {
            let asking = Asking::NotAsked;
            match found.insert(plan.number, Request { plan, asking }) {
                Ok(_) => {}
                Err(_) => return Err(Memory),
            }
        }
        Ok(Client {
            terms,
            images,
            requests: found,
            unasked: Answer::Unasked,
            waiting: Answer::Waiting,
        })
    }

    // The place of the request of a number.
    fn place_of(&self, r: u32) -> Option<usize>
        ensures { IsPlaceOf self.now.requests r result }
    {
        self.requests.get_index_of(&r)
    }

    // The place of a request that is there.
    fn place(&self, r: u32) -> usize
        requires { Has self.now r }
        ensures { IsPlaceOf self.now.requests r (Some result) }
    {
        match self.place_of(r) {
            Some(place) => place,
            None => unreachable!(),
        }
    }

    /// How many requests there are.
    pub fn len(&self) -> usize
        ensures { result ≡ length self.now.requests }
    {
        self.requests.len()
    }

    /// The number of the i-th request of the list that `make` was given.
    pub fn number(&self, i: usize) -> u32
        requires { i < length self.now.requests }
        ensures number { option_map (λ q. q.plan.number) (slice_get self.now.requests i) ≡ Some result }
        ensures has { Has self.now result }
    {
        self.requests[i].plan.number
    }

    /// Whether there is a request of this number.
    pub fn has(&self, r: u32) -> bool
        ensures { IsTrue result ↔ Has self.now r }
    {
        self.place_of(r).is_some()
    }

    /// Asks a request: the leg that is to be sent, or its answer where the walk ends before its first iteration. Nothing
    /// changes where it was asked before.
    pub fn ask(&mut self, r: u32) -> Asked
        requires { Has self.old r }
        ensures rule { Does self.old self.new r (asks self.old) result }
        ensures sent { AskedFits result }
    {
        let place = self.place(r);
        let program = usize::from(self.requests[place].plan.iter);
        self.requests[place].ask(&self.terms, self.images.get(program))
    }

    /// A tick of a request: its leg is to be sent again, or it is given up.
    pub fn tick(&mut self, r: u32) -> Ticked
        requires { Has self.old r }
        ensures rule { Does self.old self.new r (λ q. rule.tick self.old.terms q.asking) result }
        ensures sent { TickedFits result }
    {
        let place = self.place(r);
        self.requests[place].tick(&self.terms)
    }

    /// The current leg of a request, once more and with no tick; none where it is not asked or is answered.
    pub fn resend(&self, r: u32) -> Option<Leg>
        requires { Has self.now r }
        ensures rule { option_map (λ q. rule.resend q.asking) (find self.now.requests r) ≡ Some result }
        ensures sent { IfSome result LegFits }
    {
        self.requests[self.place(r)].resend()
    }

    /// The answer of a request: `Waiting` where it is asked and has none.
    pub fn answer(&self, r: u32) -> &Answer
        requires { Has self.now r }
        ensures { option_map (λ q. rule.answer_of q.asking) (find self.now.requests r) ≡ Some result.now }
    {
        match &self.requests[self.place(r)].asking {
            Asking::NotAsked => &self.unasked,
            Asking::Waiting { .. } => &self.waiting,
            Asking::Answered(answer) => answer,
        }
    }

    /// The plan of a request, as `make` was given it.
    pub fn plan(&self, r: u32) -> &RequestPlan
        requires { Has self.now r }
        ensures { option_map (λ q. q.plan) (find self.now.requests r) ≡ Some result.now }
    {
        &self.requests[self.place(r)].plan
    }

    /// Hears a back: the request that it names has its answer, or the leg of its next round is to be sent, or the back is
    /// stale and changes nothing. It is stale, too, where it names no request of this client.
    pub fn on(&mut self, back: &Back) -> Heard
        ensures rule { Hears self.old self.new back.now result (find self.old.requests back.now.request) }
        ensures sent { HeardFits result }
    {
        match self.place_of(back.request) {
            Some(place) => self.requests[place].hear(&self.terms, back),
            None => Heard::Stale,
        }
    }
}
