// The text of a summary.

ghost use Rattle.std.specs.Prelude.{◌≡◌, ◌++◌, codes, decimal, IfOk, OnOk};
ghost use Rattle.std.specs.String.{string_bytes};
ghost use Rattle.drill.specs.Summary as s;

use crate::tally::Tally;
use pulse_base::{Answer, Bytes, Memory};
use replay::Replayed;
use report_text::{Outcome, report};
use sha2::{Digest, Sha256};
use shape_build::Shape;
use std::alloc::{AllocError, Global};

/// The five lines of a drill. The work grows with the report.
pub(crate) fn summary(alloc: Global, shape: &Shape, left: &Replayed) -> Result<Bytes, Memory>
    ensures { IfOk result (λ text. text ≡ s.summary shape.now left.now) }
{
    let outcome = &left.outcome;
    let mut text = Bytes::new(alloc);
    put(&mut text, shape_line(alloc, shape)?)?;
    put(&mut text, iterations_line(alloc, outcome.order.len())?)?;
    put(&mut text, letters_line(alloc, left.letters)?)?;
    put(&mut text, answers_line(alloc, outcome.answers.as_slice())?)?;
    put(&mut text, digest_line(alloc, outcome)?)?;
    Ok(text)
}

fn put(text: &mut Bytes, line: String) -> Result<(), Memory>
    ensures { OnOk result (text.new ≡ text.old ++ string_bytes line) }
{
    text.append(line.as_bytes())
}

fn shape_line(alloc: Global, shape: &Shape) -> Result<String, AllocError>
    ensures { IfOk result (λ line. string_bytes line ≡ s.shape_line shape.now) }
{
    format!(in alloc;
        "drill {} {} {}\n",
        shape.kind.word(),
        shape.count,
        shape.seed
    )
}

fn iterations_line(alloc: Global, turns: usize) -> Result<String, AllocError>
    ensures { IfOk result (λ line. string_bytes line ≡ s.line (codes "iterations") (decimal turns)) }
{
    format!(in alloc; "iterations {turns}\n")
}

fn letters_line(alloc: Global, letters: u32) -> Result<String, AllocError>
    ensures { IfOk result (λ line. string_bytes line ≡ s.line (codes "letters") (decimal letters)) }
{
    format!(in alloc; "letters {letters}\n")
}

fn answers_line(alloc: Global, answers: &[Answer]) -> Result<String, AllocError>
    ensures { IfOk result (λ line. string_bytes line ≡ s.answers_line answers.now) }
{
    let Tally {
        done,
        faults,
        spent,
        silent,
    } = Tally::of(answers);
    format!(in alloc; "answers {done} {faults} {spent} {silent}\n")
}

fn digest_line(alloc: Global, outcome: &Outcome) -> Result<String, Memory>
    ensures { IfOk result (λ line. string_bytes line ≡ s.digest_line outcome.now) }
{
    let report = report(alloc, outcome)?;
    let digest = hex::encode(alloc, Sha256::digest(report.as_slice()))?;
    Ok(format!(in alloc; "sha256 {digest}\n")?)
}
