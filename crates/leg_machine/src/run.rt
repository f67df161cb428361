// A run of code: first without stores, and from the first store on with them.

ghost use Rattle.std.specs.Prelude.{◌≡◌, ◌<◌, true, false, length, drop};
ghost use Rattle.code_verify.specs.Rules.{window_of};
ghost use Rattle.code_verify.specs.Fits.{Fits};
ghost use Rattle.code_verify.specs.Run.{run};
ghost use Rattle.leg_machine.specs.Steps.{at};
ghost use Rattle.leg_machine.specs.Leads.{frame, StoringLeads, StoringGoesUp, is_store};
ghost use Rattle.leg_machine.specs.Ran.{AllFit, Ran, Paused, HasStores};

use crate::registers::{Registers, store_pad, store_window};
use crate::step::{Step, Stop, Visit, take_step};
use pulse_isa::Instr;

/// How a run without stores comes to its end.
#[derive(Clone, Copy, Debug, PartialEq, Eq)]
pub enum Pause {
    Stops(Stop),
    /// At this place stands a store that could be done.
    Held(usize),
}

/// Where one instruction leads, its store done.
#[derive(Clone, Copy, Debug, PartialEq, Eq)]
pub enum Storing {
    On(usize),
    Stops(Stop),
}

/// Runs code from the place past the first one, up to its first store.
#[inline(always)]
pub fn run_reading(
    code: &[Instr],
    regs: &mut Registers,
    bytes: &[u8],
    pad: &[u8],
    visit: Visit,
) -> Pause
    requires fit { AllFit (length bytes.now) (length pad.now) code.now }
    requires past { 1 < length code.now }
    ensures ran { Paused result code.now (run 1 (drop 1 code.now) (at 1 regs.old bytes.now pad.now (frame code.now visit))) (at 1 regs.new bytes.now pad.now (frame code.now visit)) }
    ensures store { result ≡ Pause.Stops Stop.NotWritable → HasStores code.now }
{
    let mut place = 1;
    'places: loop {
        match take_step(&code[place], code, place, regs, bytes, pad, visit) {
            Step::On(to) => place = to,
            Step::Stops(stop) => return Pause::Stops(stop),
            Step::StoreWindow { .. } => return Pause::Held(place),
            Step::StorePad { .. } => return Pause::Held(place),
        }
    }
}

// The instruction at a place past the first one of the code, with its store.
#[inline(always)]
fn take_storing_step(
    i: &Instr,
    code: &[Instr],
    place: usize,
    regs: &mut Registers,
    bytes: &mut [u8],
    pad: &mut [u8],
    visit: Visit,
) -> Storing
    requires fits { Fits (length bytes.old) (length pad.old) (window_of code.now) (length code.now) place i.now }
    requires later { 0 < place }
    ensures leads { StoringLeads result i.now (at place regs.old bytes.old pad.old (frame code.now visit)) (at place regs.new bytes.new pad.new (frame code.now visit)) }
    ensures goes_up { StoringGoesUp (length code.now) place result }
    ensures barred { visit.writable ≡ false → bytes.new ≡ bytes.old }
    ensures store { result ≡ Storing.Stops Stop.NotWritable → is_store i.now ≡ true }
{
    match take_step(i, code, place, regs, bytes, pad, visit) {
        Step::On(to) => Storing::On(to),
        Step::Stops(stop) => Storing::Stops(stop),
        Step::StoreWindow { a, w, off } => {
            store_window(regs, bytes, a, w, off);
            Storing::On(place + 1)
        }
        Step::StorePad { a, w, off } => {
            store_pad(regs, pad, a, w, off);
            Storing::On(place + 1)
        }
    }
}

/// Runs code from a place past the first one, and stores.
pub fn run_storing(
    code: &[Instr],
    from: usize,
    regs: &mut Registers,
    bytes: &mut [u8],
    pad: &mut [u8],
    visit: Visit,
) -> Stop
    requires fit { AllFit (length bytes.old) (length pad.old) code.now }
    requires later { 0 < from }
    requires inside { from < length code.now }
    ensures ran { Ran result (run from (drop from code.now) (at from regs.old bytes.old pad.old (frame code.now visit))) (at from regs.new bytes.new pad.new (frame code.now visit)) }
    ensures barred { visit.writable ≡ false → bytes.new ≡ bytes.old }
    ensures store { result ≡ Stop.NotWritable → HasStores code.now }
{
    let mut place = from;
    'places: loop {
        match take_storing_step(&code[place], code, place, regs, bytes, pad, visit) {
            Storing::On(to) => place = to,
            Storing::Stops(stop) => return stop,
        }
    }
}
