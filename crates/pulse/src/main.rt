//! The program `pulse`: the real ends of the outside, and the top call over them.
#![tactic(auto)]

use node_core::NodeYard;
use pulse_base::{ReaderSource, Status, WriterSink, write_all};
use pulse_cli::pulse;
use pulse_net::{Children, UdpLink};
use std::alloc::AllocError;
use std::env;
use std::io::ErrorKind;
use std::process::ExitCode;
use std::rt::Env;

fn main(rt: HostRuntime) -> ExitCode {
    let mut input = ReaderSource::new(rt.stdin());
    let mut out = WriterSink::new(rt.stdout());
    let mut err = WriterSink::new(rt.stderr());
    let mut net = UdpLink::new(&rt);
    let mut kids = Children::new(&rt);
    let mut yard = NodeYard::new(rt.alloc());
    let status = match words(&rt) {
        Ok(words) => pulse(
            rt.alloc(),
            words.as_slice(),
            &mut input,
            &mut out,
            &mut err,
            &mut net,
            &mut kids,
            &mut yard,
        ),
        Err(_) => match write_all(&mut err, b"pulse: memory\n") {
            Ok(()) => Status::Memory,
            Err(_) => Status::WriteFault,
        },
    };
    ExitCode::from(status.number())
}

// The words after the program's own name. Words that are no UTF-8 are no command, as no words are.
fn words<R: Env + AllocGlobal>(rt: &R) -> Result<Vec<String>, AllocError> {
    let mut words = Vec::new(rt.alloc());
    match env::args(rt) {
        Ok(all) => {
            for word in all.skip(1) {
                words.push(word)?;
            }
        }
        Err(error) => {
            if error.kind() == ErrorKind::OutOfMemory {
                return Err(AllocError);
            }
        }
    }
    Ok(words)
}
