// The commands on documents, given or generated.

ghost use Rattle.std.specs.Prelude.{◌≡◌, IfErr};
ghost use Rattle.pulse_cli.specs.Answers.{AnswersDrill, AnswersReplay, AnswersShape, AnswersWalk};
ghost use Rattle.pulse_cli.specs.Sides.{change};
ghost use Rattle.pulse_cli.specs.Steps.{ComesEarly, Gives};
ghost use Rattle.shape_build.specs.Shape.{InRange};

use crate::failure::{Failure, Refusal};
use drill::drill;
use flat_walk::{WalkFault, walk};
use node_core::Yard;
use pulse_base::{Bytes, Memory};
use replay::replay;
use scenario_text::DocFault;
use shape_build::{Shape, generate};
use std::alloc::Global;

/// The report of the walk that a document asks for. The yard makes its node, and is given it back.
pub(crate) fn walk_document<Y: Yard>(
    alloc: Global,
    text: &[u8],
    yard: &mut Y,
) -> Result<Bytes, Failure>
    ensures gives { Gives (AnswersWalk text.now (change (Y.returned yard.old) (Y.returned yard.new))) result }
    ensures early { IfErr result (λ failure. ComesEarly failure → yard.new ≡ yard.old) }
{
    match walk(alloc, text, yard) {
        Ok(report) => Ok(report),
        Err(WalkFault::Memory) => Err(Failure::Memory),
        Err(WalkFault::Document(fault)) => {
            Err(Failure::Refused(Refusal::Walk(WalkFault::Document(fault))))
        }
        Err(WalkFault::Form) => Err(Failure::Refused(Refusal::Walk(WalkFault::Form))),
    }
}

/// The report of the replay that a document asks for. The yard makes its nodes, and is given them back.
pub(crate) fn replay_document<Y: Yard>(
    alloc: Global,
    text: &[u8],
    yard: &mut Y,
) -> Result<Bytes, Failure>
    ensures gives { Gives (AnswersReplay text.now (change (Y.returned yard.old) (Y.returned yard.new))) result }
    ensures early { IfErr result (λ failure. ComesEarly failure → yard.new ≡ yard.old) }
{
    match replay(alloc, text, yard) {
        Ok(report) => Ok(report),
        Err(DocFault::Memory) => Err(Failure::Memory),
        Err(fault) => Err(Failure::Refused(Refusal::Document(fault))),
    }
}

/// The text of a generated document.
pub(crate) fn write_shape(alloc: Global, shape: &Shape) -> Result<Bytes, Failure>
    requires { InRange shape.now }
    ensures { Gives (AnswersShape shape.now) result }
{
    match generate(alloc, shape) {
        Ok(text) => Ok(text),
        Err(Memory) => Err(Failure::Memory),
    }
}

/// The summary of the replay of a generated document. The yard makes its nodes, and is given them back.
pub(crate) fn drill_shape<Y: Yard>(
    alloc: Global,
    shape: &Shape,
    yard: &mut Y,
) -> Result<Bytes, Failure>
    requires { InRange shape.now }
    ensures gives { Gives (AnswersDrill shape.now (change (Y.returned yard.old) (Y.returned yard.new))) result }
    ensures early { IfErr result (λ failure. ComesEarly failure → yard.new ≡ yard.old) }
{
    match drill(alloc, shape, yard) {
        Ok(summary) => Ok(summary),
        Err(DocFault::Memory) => Err(Failure::Memory),
        Err(fault) => Err(Failure::Refused(Refusal::Document(fault))),
    }
}
