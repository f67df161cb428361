// A walk over the top call, and every way in which a source or a sink fails it.

ghost use Rattle.std.specs.Prelude.{◌≤◌};

use node_core::MemYard;
use pulse_base::{Bytes, MemSink, MemSource, Numbers, Status};
use pulse_cli::pulse;
use pulse_net::{Items, MemLink, MemSpawner};
use std::alloc::Global;
use std::test::Fail;

// A walk of one iteration over one record.
const DOCUMENT: &str = "program = '''
record r { n: u8; }
iter it on r { pad { n: u8; } init(p: ptr) { go p; } end { pad.n = cur.n; done; } next { go null; } }
'''
[[region]]
base = 16
hex = '07'
[[request]]
iter = 'it'
args = [16]
";

const REPORT: &str = "pulse report 1
order 0
request 0 done 1 07
region 0 hex 07
end
";

// What a run left.
#[derive(Drop)]
struct Ran {
    status: Status,
    out: MemSink,
    err: MemSink,
}

impl Ran {
    // Whether it ended so, and left just these texts.
    fn ended(&self, status: Status, out: &[u8], err: &[u8]) -> bool {
        self.status == status && self.out.taken() == out && self.err.taken() == err
    }
}

// The calls of the ends that fail.
#[derive(Clone, Copy)]
struct Fails {
    input: &'static [u32],
    out: &'static [u32],
    err: &'static [u32],
}

const NONE: Fails = Fails {
    input: &[],
    out: &[],
    err: &[],
};

fn words_of(alloc: Global, words: &[&'static str]) -> Result<Vec<String>, Fail> {
    let mut all = Vec::new(alloc);
    for word in words {
        all.push(String::from_str(alloc, word)?)?;
    }
    Ok(all)
}

fn run(
    alloc: Global,
    words: &[&'static str],
    input: &[u8],
    piece: usize,
    fails: Fails,
) -> Result<Ran, Fail>
    requires { 1 ≤ piece }
{
    let all = words_of(alloc, words)?;
    let bytes = Bytes::from_slice(alloc, input)?;
    let mut source = MemSource::make(bytes, piece, Numbers::from_slice(alloc, fails.input)?);
    let mut out = MemSink::make(alloc, 10_000, 4, Numbers::from_slice(alloc, fails.out)?)?;
    let mut err = MemSink::make(alloc, 100, 100, Numbers::from_slice(alloc, fails.err)?)?;
    let mut net = MemLink::make(alloc, Items::new(alloc), Numbers::new(alloc));
    let mut kids = MemSpawner::make(alloc, Numbers::new(alloc), Numbers::new(alloc));
    let mut yard = MemYard::new(alloc);
    let status = pulse(
        alloc,
        all.as_slice(),
        &mut source,
        &mut out,
        &mut err,
        &mut net,
        &mut kids,
        &mut yard,
    );
    Ok(Ran { status, out, err })
}

const FIRST_READ: Fails = Fails {
    input: &[0],
    ..NONE
};

const SECOND_READ: Fails = Fails {
    input: &[1],
    ..NONE
};

const FIRST_WRITE: Fails = Fails { out: &[0], ..NONE };

const FOURTH_WRITE: Fails = Fails { out: &[3], ..NONE };

const FIRST_LINE: Fails = Fails { err: &[0], ..NONE };

const READ_AND_LINE: Fails = Fails {
    input: &[0],
    err: &[0],
    ..NONE
};

#[test]
#[rattlefmt::skip]
fn says_why_it_fails(rt: HostRuntime) -> Result<(), Fail> {
    // The words, the bytes that a read takes, the calls that fail, the status, and what out and err took.
    let cases: [(&'static str, &'static [&'static str], usize, Fails, Status, &'static str, &'static str); 9] = [
        ("nothing", &["walk"], 99, NONE, Status::Ok, REPORT, ""),
        ("the document", &["replay", "1"], 99, NONE, Status::Usage, "", "pulse: usage\n"),
        ("the pieces", &["check"], 8, NONE, Status::Refused, "", "pulse: program lex 10\n"),
        ("a read", &["walk"], 99, FIRST_READ, Status::ReadFault, "", "pulse: read\n"),
        ("a later read", &["walk"], 8, SECOND_READ, Status::ReadFault, "", "pulse: read\n"),
        ("a write", &["walk"], 99, FIRST_WRITE, Status::WriteFault, "", "pulse: write\n"),
        ("a later write", &["walk"], 99, FOURTH_WRITE, Status::WriteFault, "pulse report", "pulse: write\n"),
        ("a line", &[], 99, FIRST_LINE, Status::WriteFault, "", ""),
        ("a read and its line", &["walk"], 99, READ_AND_LINE, Status::WriteFault, "", ""),
    ];
    for (name, words, piece, fails, status, out, err) in cases {
        assert!(rt; piece >= 1);
        let ran = run(rt.alloc(), words, DOCUMENT.as_bytes(), piece, fails)?;
        assert!(rt; ran.ended(status, out.as_bytes(), err.as_bytes()), "{name}");
    }
    Ok(())
}
