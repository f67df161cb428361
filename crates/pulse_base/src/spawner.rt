// Where child programs are started.

ghost use Rattle.std.specs.Prelude.{◌≡◌, ℕ, Option, map};
ghost use Rattle.std.specs.String.{string_bytes};
ghost use Rattle.pulse_base.specs.Outside.{HasCause};
ghost use Rattle.pulse_base.specs.Spawner.{Family, Starts, Waits};

use crate::source::Failed;
use std::marker::Model;

/// A child program that was started and is still to be waited for. Contracts see its number.
#[derive(Debug, Drop)]
pub struct Kid {
    number: u32,
}

impl Model for Kid {
    ghost use Rattle.std.specs.Prelude.{ℕ};

    ghost Value = { ℕ };

    ghost view = { λ k. k.number };
}

impl Kid {
    /// The child with this number. For spawners: whoever waits has its children from `start`.
    pub fn of(number: u32) -> Kid
        ensures { result ≡ number }
    {
        Kid { number }
    }

    /// Its number.
    pub fn number(&self) -> u32
        ensures { result ≡ self.now }
    {
        self.number
    }
}

/// A starter of child programs, which may tell which ones it started and waited for.
pub trait Spawner {
    /// The children started and waited for, where they are told.
    ghost family: { Self → Option Family };

    /// How often a call has failed: it never falls, and stands still at 2^64 − 1.
    ghost faults: { Self → ℕ };

    /// Starts a child with these words and this input.
    fn start(&mut self, words: &[String], input: &[u8]) -> Result<Kid, Failed>
        ensures family { Starts (family self.old) (family self.new) (map string_bytes words.now) input.now result }
        ensures cause { HasCause (faults self.old) (faults self.new) result };

    /// Waits for a child's end, and gives its exit status.
    fn wait(&mut self, kid: Kid) -> Result<u8, Failed>
        ensures family { Waits (family self.old) (family self.new) kid result }
        ensures cause { HasCause (faults self.old) (faults self.new) result };
}
