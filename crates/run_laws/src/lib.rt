//! The laws of runs: whatever a schedule loses, repeats or reorders, its order of iterations is legal, the nodes hold
//! the memory of that order's flat run, and each answer is silent or due.
//!
//! Nothing here runs, and nothing stands below: the rules are definitions of this crate, in which nodes and memory are
//! functions and an iteration is any function. Read `specs/Plan.antt` first, then `Flat`, `Node`, `Client`, `World` and
//! `Laws`. What stands in `specs/Spines` says why the laws hold; `docs/run.md` tells it in words.
#![tactic(auto)]

ghost use Rattle.run_laws.specs.Laws.{AnswersStay, FlatRunExplains};
ghost use Rattle.run_laws.specs.Spines.Carries.{EachEventKeepsShape, EachEventKeepsSent, FirstCarries};
ghost use Rattle.run_laws.specs.Spines.Drain.{DrainAdvances};
ghost use Rattle.run_laws.specs.Spines.Sound.{EachEventKeeps, FirstIsSound, SoundExplains, SoundSays};

/// Whatever letters the events lose, repeat or reorder: the order is legal, the nodes hold the flat memory after it,
/// and each answer is silent or due.
pub fn law_flat_run_explains()
    ensures { FlatRunExplains }
{}

/// An answer that was given never changes.
pub fn law_answers_stay()
    ensures { AnswersStay }
{}

/// The world before the first event is sound.
pub fn law_first_is_sound()
    ensures { FirstIsSound }
{}

/// Each event keeps Sound.
pub fn law_each_event_keeps()
    ensures { EachEventKeeps }
{}

/// In a sound world the order is legal, the memory is that of the order, and each answer is silent or due.
pub fn law_sound_explains()
    ensures { SoundExplains }
{}

/// Sentences of Sound in plain words.
pub fn law_sound_says()
    ensures { SoundSays }
{}

/// A step of the drain gives the answer, or lowers the measure of the last letter.
pub fn law_drain_advances()
    ensures { DrainAdvances }
{}

/// Letters, slots and clients carry pads of their request's size and at most the budget; regions keep their lengths.
pub fn law_each_event_keeps_shape()
    ensures { EachEventKeepsShape }
{}

/// Each back that a node keeps was sent.
pub fn law_each_event_keeps_sent()
    ensures { EachEventKeepsSent }
{}

/// Before the first event each has its shape, and nothing is kept.
pub fn law_first_carries()
    ensures { FirstCarries }
{}
