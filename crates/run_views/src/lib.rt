//! The rules of node, switch and client, seen as the laws of runs see them.
//!
//! `run_rules` says what a node, the switch and a client do; `run_laws` says what holds of every run of rules in which
//! frames have neither client nor program, and a node is a function from legs to what it has of them. Here the first are
//! shown to be the second. Nothing here runs. Read `specs/Setting.antt` first: what stays the same in a run, and the plan that
//! the laws make of it; then the views in `Frames`, `Nodes`, `Clients` and `Switches`, and what is proved in `Laws`.
#![tactic(auto)]

ghost use Rattle.run_views.specs.Keeps.{AcceptKeeps, ClientKeeps, PlanKeepsShape, SwitchKeeps, TurnKeeps};
ghost use Rattle.run_views.specs.Laws.{AcceptSeen, AskSeen, HearSeen, SwitchSeen, TickSeen, TurnSeen};

/// A client that is asked.
pub fn law_ask_seen()
    ensures { AskSeen }
{}

/// A client's tick, and the drain's resend.
pub fn law_tick_seen()
    ensures { TickSeen }
{}

/// A back at a client.
pub fn law_hear_seen()
    ensures { HearSeen }
{}

/// A leg or a back at the switch.
pub fn law_switch_seen()
    ensures { SwitchSeen }
{}

/// A node that accepts a leg.
pub fn law_accept_seen()
    ensures { AcceptSeen }
{}

/// A turn of any live leg.
pub fn law_turn_seen()
    ensures { TurnSeen }
{}

/// A node that accepts a leg keeps what is always true of it.
pub fn law_accept_keeps()
    ensures { AcceptKeeps }
{}

/// A node that makes a turn keeps what is always true of it.
pub fn law_turn_keeps()
    ensures { TurnKeeps }
{}

/// What the switch sends is of its request.
pub fn law_switch_keeps()
    ensures { SwitchKeeps }
{}

/// What a client sends is of its request, and its requests stay so.
pub fn law_client_keeps()
    ensures { ClientKeeps }
{}

/// Walks keep the lengths of pads and regions.
pub fn law_plan_keeps_shape()
    ensures { PlanKeepsShape }
{}
