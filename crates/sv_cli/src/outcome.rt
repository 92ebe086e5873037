// What a call of the program comes to.
ghost use Rattle.std.specs.Prelude.{◌≡◌};
ghost use Rattle.sv_cli.specs.Answer.{status_of};

use sv_judge::Spent;
use sv_report::Broken;
use sv_words::UsageKind;

/// What `run` comes to.
#[derive(Debug, Drop)]
pub enum Outcome {
    /// The text is accepted, or its certificate; or its obligations are listed, the clauses of one
    /// are printed, or its design is simulated.
    Done,
    /// The text, its certificate or the stimulus is refused.
    Refused(Broken),
    /// The words are no command.
    Usage(UsageKind),
    /// No obligation is falsified, and the budget is spent on this one, the first such.
    Unknown(Spent),
    /// A file or the input could not be read.
    ReadFault,
    /// The output could not be written, or the certificate not be stored.
    WriteFault,
    /// Memory ran out.
    OutOfMemory,
}

impl Outcome {
    /// The exit status of the program.
    pub fn status(&self) -> u8
        ensures { result ≡ status_of self.now }
    {
        match self {
            Outcome::Done => 0,
            Outcome::Refused(_) => 1,
            Outcome::Usage(_) => 2,
            Outcome::Unknown(_) => 3,
            Outcome::ReadFault => 4,
            Outcome::WriteFault => 5,
            Outcome::OutOfMemory => 6,
        }
    }
}
