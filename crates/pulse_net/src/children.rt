// Child programs of this machine: the trusted edge.

use pulse_base::{Failed, Kid, Spawner};
use std::io;
use std::io::Write;
use std::process::{Child, Command, OpenProcess, Processes, Stdio};

/// Starts the program's own file as a child, with its standard output discarded. It does not tell what it started.
#[derive(Drop)]
pub struct Children<'a, R: Processes + AllocGlobal> {
    rt: &'a R,
    file: &'a str,
    running: Vec<Child<R::Started>>,
    faults: u64,
}

impl<'a, R: Processes + AllocGlobal> Children<'a, R> {
    pub fn new(rt: &'a R) -> Children<'a, R> {
        Children::of_file(rt, "/proc/self/exe")
    }

    /// The same of another file than the program's own.
    pub fn of_file(rt: &'a R, file: &'a str) -> Children<'a, R> {
        Children {
            rt,
            file,
            running: Vec::new(rt.alloc()),
            faults: 0,
        }
    }
}

fn start_file<R: Processes + AllocGlobal>(
    rt: &R,
    file: &str,
    words: &[String],
    input: &[u8],
) -> io::Result<Child<R::Started>> {
    let mut command = Command::new(rt.alloc(), file)?;
    for word in words {
        command.arg(word.as_str())?;
    }
    command.stdin(Stdio::piped()).stdout(Stdio::null());
    let mut child = command.spawn(rt)?;
    if let Some(mut stdin) = child.stdin.take() {
        stdin.write_all(input)?;
    }
    Ok(child)
}

impl<'a, R: Processes + AllocGlobal> Spawner for Children<'a, R> {
    ghost use Rattle.std.specs.Prelude.{None};

    ghost family = { λ s. None };

    ghost faults = { λ s. s.faults };

    fn start(&mut self, words: &[String], input: &[u8]) -> Result<Kid, Failed> {
        if let Ok(number) = u32::try_from(self.running.len()) {
            if let Ok(child) = start_file(self.rt, self.file, words, input) {
                if let Ok(()) = self.running.push(child) {
                    return Ok(Kid::of(number));
                }
            }
        }
        self.faults = self.faults.saturating_add(1);
        Err(Failed)
    }

    fn wait(&mut self, kid: Kid) -> Result<u8, Failed> {
        if let Some(child) = self.running.get_mut(kid.number() as usize) {
            if let Ok(status) = child.wait() {
                if let Some(code) = status.code() {
                    if let Ok(code) = u8::try_from(code) {
                        return Ok(code);
                    }
                }
            }
        }
        self.faults = self.faults.saturating_add(1);
        Err(Failed)
    }
}
