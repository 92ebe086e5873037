// What words may ask for, and what may be wrong with them.
ghost use Rattle.sv_words.specs.declared.command.WordFault.TheVariants.{OutOfMemory};
ghost use Rattle.std.specs.Prelude.{◌≡◌};

use std::alloc::AllocError;
use thiserror::Error;

/// The commands of the program, by their first words.
#[derive(Clone, Copy, Debug, PartialEq, Eq)]
pub enum CommandName {
    /// `check`
    Check,
    /// `verify`
    Verify,
    /// `list`
    List,
    /// `cnf`
    Cnf,
    /// `sim`
    Sim,
    /// `compare`
    Compare,
    /// `gen`
    Gen,
}

/// What the words ask for. `file` is FILE, and `top` the name after `--top`, where there is one;
/// a name may be empty. A flag is set where it stands.
#[derive(Debug, PartialEq, Eq, Drop)]
pub enum Command {
    /// `check FILE [--proof NAME] [--budget N] [--top M] [--json]`: say whether the text keeps its
    /// secrets.
    Check {
        /// The name of the text.
        file: String,
        /// The name under which to store the certificate.
        proof: Option<String>,
        /// How many clauses may be learned for each obligation, 1 to 4,000,000,000; 20,000 where
        /// the words say nothing.
        budget: u32,
        /// The module to take as the top.
        top: Option<String>,
        /// The verdict is wanted as JSON.
        json: bool,
    },
    /// `verify FILE PROOF [--top M]`: say whether a certificate shows that the text keeps its
    /// secrets.
    Verify {
        /// The name of the text.
        file: String,
        /// The name of the certificate.
        proof: String,
        /// The module to take as the top.
        top: Option<String>,
    },
    /// `list FILE [--top M]`: list the text's obligations.
    List {
        /// The name of the text.
        file: String,
        /// The module to take as the top.
        top: Option<String>,
    },
    /// `cnf FILE NUMBER [--top M]`: print the clauses of one of the text's obligations.
    Cnf {
        /// The name of the text.
        file: String,
        /// The number of the obligation.
        number: u32,
        /// The module to take as the top.
        top: Option<String>,
    },
    /// `sim FILE [--level P] [--order N] [--top M]`: simulate the text's design.
    Sim {
        /// The name of the text.
        file: String,
        /// The point whose view is shown.
        level: Option<String>,
        /// The number of the order in which processes run, 0 to the greatest u64.
        order: Option<u64>,
        /// The module to take as the top.
        top: Option<String>,
    },
    /// `compare FILE A B --level P [--top M]`: tell the first difference that the level sees
    /// between the text's design on two stimuli.
    Compare {
        /// The name of the text.
        file: String,
        /// The name of the first stimulus.
        a: String,
        /// The name of the second stimulus.
        b: String,
        /// The point whose views are compared.
        level: String,
        /// The module to take as the top.
        top: Option<String>,
    },
    /// `gen LANES [--check]`: print a sample design, or its verdict.
    Gen {
        /// The number of lanes. The words take any u32; the program makes designs of 1 to 200.
        lanes: u32,
        /// The verdict is wanted and not the design.
        check: bool,
    },
}

/// What is wrong with words that ask for nothing.
#[derive(Clone, Copy, Debug, PartialEq, Eq)]
pub enum UsageKind {
    /// There are no words.
    NoCommand,
    /// The first word is no command.
    UnknownCommand,
    /// The other words do not go with the command.
    Words,
}

/// Why words give no command.
#[derive(Clone, Copy, Debug, PartialEq, Eq, Error)]
pub enum WordFault {
    /// They ask for nothing.
    #[error("the words are no command")]
    Usage(UsageKind),
    /// Memory ran out.
    #[error("out of memory")]
    OutOfMemory,
}

impl From<AllocError> for WordFault {
    ghost from_gives = { λ _ fault. fault ≡ OutOfMemory };

    fn from(_error: AllocError) -> WordFault {
        WordFault::OutOfMemory
    }
}
