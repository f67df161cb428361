// What is true of each run of verified code.

ghost use Rattle.std.specs.Prelude.{List};
ghost use Rattle.pulse_isa.specs.declared.instr.Instr.{Instr};
ghost use Rattle.code_verify.specs.declared.bad.Sizes.{Sizes};
ghost use Rattle.code_verify.specs.Rules.{Verified};
ghost use Rattle.code_verify.specs.Laws.{IsNeverStuck, JumpsUp, PassesOnce};

/// The laws of verified code: no run of it is stuck, each of its jumps goes to a higher place, and a run passes
/// each place at most once.
pub fn verified_runs()
    ensures never_stuck { (sizes : Sizes) (code : List Instr) → Verified sizes code → IsNeverStuck sizes code }
    ensures jumps_up { (sizes : Sizes) (code : List Instr) → Verified sizes code → JumpsUp code }
    ensures passes_once { (sizes : Sizes) (code : List Instr) → Verified sizes code → PassesOnce code }
{}
