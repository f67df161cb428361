// Why a process tells nothing.

ghost use Rattle.std.specs.Prelude.{◌≡◌, ◌≢◌};
ghost use Rattle.scenario_text.specs.declared.fault.DocFault.TheVariants as doc;
ghost use Rattle.pulse_process.specs.Lines.{limit_word};

use pulse_base::Memory;
use scenario_text::DocFault;

/// What an accepted document lacks, or has too much of.
#[derive(Clone, Copy, Debug, PartialEq, Eq)]
pub enum FormLimit {
    /// It has no node of this number.
    Node,
    /// It has no client of this number.
    Client,
    /// It has several clients.
    Clients,
}

impl FormLimit {
    /// The word for it in an error line.
    pub fn word(self) -> &'static str
        ensures { result.now ≡ limit_word self }
    {
        match self {
            FormLimit::Node => "node",
            FormLimit::Client => "client",
            FormLimit::Clients => "clients",
        }
    }
}

/// Why a process tells nothing.
#[derive(Debug, Drop)]
pub enum ProcessFault {
    /// The document is refused: this is its first failing check. It is never want of memory.
    Document(DocFault),
    /// The document is accepted and has not the form that the process asks for.
    Form(FormLimit),
    /// A call on the link failed.
    Link,
    /// A child could not be started or waited for.
    Child,
    /// The want of memory, which may come at any time.
    Memory,
}

impl From<Memory> for ProcessFault {
    ghost use Rattle.pulse_process.specs.declared.fault.ProcessFault.TheVariants as f;

    ghost from_gives = { λ memory fault. fault ≡ f.Memory };

    fn from(_memory: Memory) -> ProcessFault
        ensures { result ≡ ProcessFault.Memory }
    {
        ProcessFault::Memory
    }
}
