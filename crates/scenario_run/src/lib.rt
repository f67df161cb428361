//! What a run of a scenario is: what stays the same in it, the world before its first event, and when compiled images stand
//! for its program; and that each scenario that can be run has all of these. Nothing here runs. Read `specs/Setting.antt`, then
//! `Start` and `Code`, and what is proved in `Laws`.
#![tactic(auto)]

ghost use Rattle.scenario_run.specs.Laws.{BeginIs, CodeIs, EventsAre, HasNumbersLaw, SettingIs, StartIs, TurnRuns};

/// The regions make a table, each request has a program and a client, and the source's iterations keep lengths.
pub fn law_setting_is()
    ensures { SettingIs }
{}

/// A request's iterations are fewer than the leg numbers.
pub fn law_has_numbers()
    ensures { HasNumbersLaw }
{}

/// The first world is that of a run: each node has just its share of the regions, and nothing is asked, sent, live or kept.
pub fn law_start_is()
    ensures { StartIs }
{}

/// Each event names a request that is there.
pub fn law_events_are()
    ensures { EventsAre }
{}

/// Compiled images do the source's iterations.
pub fn law_code_is()
    ensures { CodeIs }
{}

/// The walks of compiled images begin as the source says.
pub fn law_begin_is()
    ensures { BeginIs }
{}

/// At a live leg of a run, the code of such images gives the outcome that the setting asks.
pub fn law_turn_runs()
    ensures { TurnRuns }
{}
