// How many requests were answered in which way.

ghost use Rattle.std.specs.Prelude.{◌≡◌, ◌<◌, ◌^◌};
ghost use Rattle.drill.specs.inner.Tally.{counted, tally_of};

use pulse_base::Answer;

/// How many requests were answered in each of the four ways.
#[derive(Debug, Drop)]
pub(crate) struct Tally {
    pub(crate) done: u64,
    pub(crate) faults: u64,
    pub(crate) spent: u64,
    pub(crate) silent: u64,
}

impl Tally {
    /// The answers by their kinds. An answer that is none yet is passed over.
    pub(crate) fn of(answers: &[Answer]) -> Tally
        ensures { result ≡ tally_of answers.now }
    {
        let mut tally = Tally {
            done: 0,
            faults: 0,
            spent: 0,
            silent: 0,
        };
        'answers: for answer in answers {
            tally.count(answer);
        }
        tally
    }

    fn count(&mut self, answer: &Answer)
        requires done { self.old.done < 2 ^ 63 }
        requires faults { self.old.faults < 2 ^ 63 }
        requires spent { self.old.spent < 2 ^ 63 }
        requires silent { self.old.silent < 2 ^ 63 }
        ensures { self.new ≡ counted self.old answer.now }
    {
        match answer {
            Answer::Done { .. } => self.done += 1,
            Answer::Fault { .. } => self.faults += 1,
            Answer::Spent { .. } => self.spent += 1,
            Answer::Silent => self.silent += 1,
            Answer::Unasked | Answer::Waiting => {}
        }
    }
}
