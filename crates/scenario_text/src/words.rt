// What a user reads of a refused document.

ghost use Rattle.std.specs.Prelude.{◌≡◌, ◌++◌, IfOk, codes, decimal};
ghost use Rattle.iter_check.specs.Words.{kind_word};
ghost use Rattle.scenario_text.specs.Lines.{syntax_words, table_words, words_of};

use crate::fault::DocFault;
use iter_check::CheckKind;
use iter_syntax::SyntaxFault;
use itoa::Buffer;
use pulse_base::{Bytes, Memory};
use range_table::TableFault;
use std::alloc::Global;

// Some words, and a name after them.
fn named(alloc: Global, words: &str, name: &[u8]) -> Result<Bytes, Memory>
    ensures { IfOk result (λ line. line ≡ words.now ++ name.now) }
{
    let mut line = Bytes::from_slice(alloc, words.as_bytes())?;
    line.append(name)?;
    Ok(line)
}

// Some words, and a number after them.
fn numbered(alloc: Global, words: &str, number: u32) -> Result<Bytes, Memory>
    ensures { IfOk result (λ line. line ≡ words.now ++ decimal number) }
{
    let mut buffer = Buffer::new();
    let mut line = Bytes::from_slice(alloc, words.as_bytes())?;
    line.append(buffer.format(number).as_bytes())?;
    Ok(line)
}

fn syntax_words(alloc: Global, fault: SyntaxFault) -> Result<Bytes, Memory>
    ensures { IfOk result (λ line. line ≡ syntax_words fault) }
{
    match fault {
        SyntaxFault::Lex(at) => numbered(alloc, "program lex ", at),
        SyntaxFault::Deep(at) => numbered(alloc, "program deep ", at),
        SyntaxFault::Syntax(at) => numbered(alloc, "program syntax ", at),
        SyntaxFault::Memory => Bytes::from_slice(alloc, b"memory"),
    }
}

fn check_words(alloc: Global, kind: CheckKind, place: u32) -> Result<Bytes, Memory>
    ensures { IfOk result (λ line. line ≡ codes "program " ++ kind_word kind ++ codes " " ++ decimal place) }
{
    let line = format!(in alloc; "program {kind} {place}")?;
    Bytes::from_slice(alloc, line.as_bytes())
}

fn region_words(alloc: Global, i: u32, what: &str) -> Result<Bytes, Memory>
    ensures { IfOk result (λ line. line ≡ codes "document region " ++ decimal i ++ what.now) }
{
    let mut line = numbered(alloc, "document region ", i)?;
    line.append(what.as_bytes())?;
    Ok(line)
}

fn table_words(alloc: Global, i: u32, fault: TableFault) -> Result<Bytes, Memory>
    ensures { IfOk result (λ line. line ≡ table_words i fault) }
{
    match fault {
        TableFault::TooMany => Bytes::from_slice(alloc, b"document limit region"),
        TableFault::Empty(_) => region_words(alloc, i, " empty"),
        TableFault::Range(_) => region_words(alloc, i, " range"),
        TableFault::Overlap(j, _) => {
            let mut buffer = Buffer::new();
            let mut line = region_words(alloc, i, " overlap ")?;
            line.append(buffer.format(j).as_bytes())?;
            Ok(line)
        }
    }
}

impl DocFault {
    /// What a user reads of the fault behind `pulse: `, without the line's end. A key is told as it stands in
    /// the document, whatever characters it has.
    pub fn words(&self, alloc: Global) -> Result<Bytes, Memory>
        ensures { IfOk result (λ line. line ≡ words_of self.now) }
    {
        match self {
            DocFault::Toml => Bytes::from_slice(alloc, b"document toml"),
            DocFault::Key(name) => named(alloc, "document key ", name.as_slice()),
            DocFault::Missing(name) => named(alloc, "document missing ", name.as_slice()),
            DocFault::Value(name) => named(alloc, "document value ", name.as_slice()),
            DocFault::Hex(i) => numbered(alloc, "document hex ", *i),
            DocFault::Limit(name) => named(alloc, "document limit ", name.as_slice()),
            DocFault::Program(fault) => syntax_words(alloc, *fault),
            DocFault::Check { kind, place } => check_words(alloc, *kind, *place),
            DocFault::Region(i, fault) => table_words(alloc, *i, *fault),
            DocFault::Iter(i) => numbered(alloc, "document iter ", *i),
            DocFault::Args(i) => numbered(alloc, "document args ", *i),
            DocFault::Event(i) => numbered(alloc, "document event ", *i),
            DocFault::Memory => Bytes::from_slice(alloc, b"memory"),
        }
    }
}
