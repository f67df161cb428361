// The code of flat programs does what they mean.

ghost use Rattle.flat_code.specs.Segments.{BodyLaw, InitLaw};

/// A run of a body's code is an iteration: end, and next where end falls through.
pub fn law_body()
    ensures { BodyLaw }
{}

/// A run of an init's code begins a walk.
pub fn law_init()
    ensures { InitLaw }
{}
