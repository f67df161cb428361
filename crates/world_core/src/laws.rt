// Laws.

ghost use Rattle.world_core.specs.Laws.{StepKeepsRun};

/// What an event of a world does keeps what is always true of a run, whatever its nodes are.
pub fn law_step_keeps_run()
    ensures { StepKeepsRun }
{}
