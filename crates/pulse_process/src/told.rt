// What a process tells when it ends.

ghost use Rattle.std.specs.Prelude.{◌≡◌, ◌⊎◌, Err, IfOk, IfErr};
ghost use Rattle.pulse_process.specs.Bound.{end_of};

use crate::fault::ProcessFault;
use pulse_base::Bytes;
use pulse_serve::Served;

/// What a process tells, and whether it finished: a node and the switch by a Stop, a client by the last answer. One that did not
/// finish has used all its turns.
#[derive(Debug, Drop)]
pub struct Told {
    pub text: Bytes,
    pub finished: bool,
}

/// Whether a loop finished or used all its turns, where it ended so.
pub fn finished(served: Served) -> Result<bool, ProcessFault>
    ensures ends { IfOk result (λ f. served ≡ end_of f) }
    ensures link { result ≡ Err ProcessFault.Link → served ≡ Served.LinkFault }
    ensures lost { served ≡ Served.LinkFault → result ≡ Err ProcessFault.Link }
    ensures fault { IfErr result (λ f. (f ≡ ProcessFault.Link) ⊎ (f ≡ ProcessFault.Memory)) }
{
    match served {
        Served::Stopped => Ok(true),
        Served::TurnsUsed => Ok(false),
        Served::LinkFault => Err(ProcessFault::Link),
        Served::Memory => Err(ProcessFault::Memory),
    }
}
