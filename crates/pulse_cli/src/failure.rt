// How a command fails, and what it then says.

ghost use Rattle.std.specs.Prelude.{◌≡◌, ◌⊎◌, IfOk};
ghost use Rattle.std.specs.String.{string_bytes};
ghost use Rattle.pulse_cli.specs.declared.failure.Failure.TheVariants as f;
ghost use Rattle.pulse_cli.specs.Lines.{line_of, refusal_text};
ghost use Rattle.pulse_cli.specs.Steps.{Fails};
ghost use Rattle.pulse_cli.specs.Ending.{seen, SaysLine};

use code_image::ImageFault;
use flat_walk::WalkFault;
use iter_check::CheckKind;
use pulse_base::{Bytes, Memory, Sink, Status, write_all};
use pulse_process::FormLimit;
use scenario_text::DocFault;
use std::alloc::Global;

/// Why an input is refused. Places are byte offsets in the text.
#[derive(Debug, Drop)]
pub(crate) enum Refusal {
    /// The document has no report of a walk. The fault is never want of memory.
    Walk(WalkFault),
    /// The first failing check of a document. The fault is never want of memory.
    Document(DocFault),
    /// What an accepted document lacks, or has too much of.
    Form(FormLimit),
    /// The input has more than 67,108,864 bytes.
    Long,
    /// The text of a program has more than 65,536 bytes.
    ProgramLimit,
    /// Where no token of a program begins.
    Lex(u32),
    /// Where a program's brackets or statements go too deep.
    Deep(u32),
    /// Where a program stops being one.
    Syntax(u32),
    /// The first fault of a program's list.
    Check { kind: CheckKind, place: u32 },
    /// A program has no iterator of the name that was asked for.
    Iter,
    /// Why bytes are no image.
    Image(ImageFault),
}

/// Why a command gave no output.
#[derive(Debug, Drop)]
pub(crate) enum Failure {
    /// The words are no command.
    Usage,
    /// Memory ran out.
    Memory,
    /// A read of the input failed.
    Read,
    /// The input is refused.
    Refused(Refusal),
    /// A write of the output failed.
    Write,
    /// A call on the link failed.
    Link,
    /// All turns were used. The output was written.
    Turns,
    /// A child could not be started or waited for.
    Child,
}

impl From<Memory> for Failure {
    ghost from_gives = { λ _ failure. failure ≡ f.Memory };

    fn from(_memory: Memory) -> Failure {
        Failure::Memory
    }
}

impl Refusal {
    // Its line on err.
    fn line(&self, alloc: Global) -> Result<Bytes, Memory>
        ensures { IfOk result (λ line. line ≡ line_of (Failure.Refused self.now)) }
    {
        let words = self.words(alloc)?;
        let mut line = Bytes::from_slice(alloc, b"pulse: ")?;
        line.append(words.as_slice())?;
        line.append(b"\n")?;
        Ok(line)
    }

    fn words(&self, alloc: Global) -> Result<Bytes, Memory>
        ensures { IfOk result (λ words. words ≡ refusal_text self.now) }
    {
        match self {
            Refusal::Walk(fault) => fault.words(alloc),
            Refusal::Document(fault) => fault.words(alloc),
            Refusal::Form(limit) => {
                Ok(bytes_of(format!(in alloc; "document limit {}", limit.word())?))
            }
            Refusal::Long => Bytes::from_slice(alloc, b"document long"),
            Refusal::ProgramLimit => Bytes::from_slice(alloc, b"document limit program"),
            Refusal::Lex(at) => Ok(bytes_of(format!(in alloc; "program lex {at}")?)),
            Refusal::Deep(at) => Ok(bytes_of(format!(in alloc; "program deep {at}")?)),
            Refusal::Syntax(at) => Ok(bytes_of(format!(in alloc; "program syntax {at}")?)),
            Refusal::Check { kind, place } => {
                Ok(bytes_of(format!(in alloc; "program {kind} {place}")?))
            }
            Refusal::Iter => Bytes::from_slice(alloc, b"program iter"),
            Refusal::Image(fault) => Ok(bytes_of(format!(in alloc; "{fault}")?)),
        }
    }
}

fn bytes_of(text: String) -> Bytes
    ensures { result ≡ string_bytes text }
{
    Bytes::from_vec(text.into_bytes())
}

/// Says a failure on `err`, and answers its status; a failed write makes that `WriteFault`. Where memory runs out for
/// the line of a refusal, that is the failure that is said.
pub(crate) fn fail<E: Sink>(alloc: Global, err: &mut E, failure: Failure) -> Status
    ensures { Fails failure (seen (E.taken err.old) (E.faults err.old)) (seen (E.taken err.new) (E.faults err.new)) result }
{
    match failure {
        Failure::Usage => say(err, b"pulse: usage\n", Status::Usage),
        Failure::Memory => say(err, b"pulse: memory\n", Status::Memory),
        Failure::Read => say(err, b"pulse: read\n", Status::ReadFault),
        Failure::Refused(refusal) => refuse(alloc, err, refusal),
        Failure::Write => say(err, b"pulse: write\n", Status::WriteFault),
        Failure::Link => say(err, b"pulse: link\n", Status::LinkFault),
        Failure::Turns => say(err, b"pulse: turns\n", Status::TurnsUsed),
        Failure::Child => say(err, b"pulse: child\n", Status::ChildFault),
    }
}

fn refuse<E: Sink>(alloc: Global, err: &mut E, refusal: Refusal) -> Status
    ensures { Fails (Failure.Refused refusal) (seen (E.taken err.old) (E.faults err.old)) (seen (E.taken err.new) (E.faults err.new)) result }
{
    match refusal.line(alloc) {
        Ok(line) => say(err, line.as_slice(), Status::Refused),
        Err(_) => say(err, b"pulse: memory\n", Status::Memory),
    }
}

// Says a line, and answers the status; a failed write makes that `WriteFault`.
fn say<E: Sink>(err: &mut E, line: &[u8], status: Status) -> Status
    ensures { SaysLine (seen (E.taken err.old) (E.faults err.old)) (seen (E.taken err.new) (E.faults err.new)) line.now status result }
{
    match write_all(err, line) {
        Ok(()) => status,
        Err(_) => Status::WriteFault,
    }
}
