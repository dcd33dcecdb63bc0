//! How a call of the program ends.

ghost use Rattle.std.specs.Prelude.{◌≡◌};
ghost use Rattle.hp_top.specs.Codes.{code_of};

use hp_judge::Why;
use hp_model::{BootFact, Rule};
use std::fmt;

/// How the top call ended. docs/FORMATS.md has the texts.
#[derive(Clone, Copy, Debug, PartialEq)]
pub enum Status {
    /// The input was read to its end, and all was written.
    Done,
    /// The words are no command.
    BadWords,
    /// The source failed.
    ReadFault,
    /// The input has a byte past the limit.
    TooLong,
    /// The input is no TOML.
    NotToml,
    /// The input breaks this rule of the platform file, and none before it.
    Rule(Rule),
    /// The boot sequence read this value.
    BootRefused(BootFact),
    /// The sink failed. A front of the text was written.
    WriteFault,
    /// The trace has this line, from 1, at fault.
    TraceRefused(u64, Why),
    /// Want of memory. A front of the text was written, or nothing.
    NoMemory,
}

impl Status {
    /// The exit status of the process.
    pub fn code(&self) -> u8
        ensures { result ≡ code_of self.now }
    {
        match self {
            Status::Done => 0,
            Status::BadWords => 2,
            Status::ReadFault => 3,
            Status::TooLong => 4,
            Status::NotToml => 5,
            Status::Rule(_) => 6,
            Status::BootRefused(_) => 7,
            Status::WriteFault => 8,
            Status::TraceRefused(_, _) => 9,
            Status::NoMemory => 10,
        }
    }
}

/// What is wrong with a line of a trace, in a word.
fn word_of(why: Why) -> &'static str {
    match why {
        Why::Line => "line",
        Why::Step => "step",
        Why::End => "end",
    }
}

/// The text of a status, which goes to standard error.
impl fmt::Display for Status {
    fn fmt<W: fmt::Write>(&self, f: &mut fmt::Formatter<W>) -> fmt::Result {
        match self {
            Status::Done => write!(f, "done"),
            Status::BadWords => write!(
                f,
                "words must be run, check, threads, or gen with a number from 1 to 1000"
            ),
            Status::ReadFault => write!(f, "read failed"),
            Status::TooLong => write!(f, "input too long"),
            Status::NotToml => write!(f, "not TOML"),
            Status::Rule(Rule(number)) => write!(f, "rule {number}"),
            Status::BootRefused(BootFact::NotModern(read)) => {
                write!(f, "boot refused: command data 2 read {read:08x}")
            }
            Status::BootRefused(BootFact::NoDefaultSmram(read)) => {
                write!(f, "boot refused: register 9c read {read:02x}")
            }
            Status::BootRefused(BootFact::NotNegotiated(read)) => {
                write!(f, "boot refused: features-ok read {read:02x}")
            }
            Status::BootRefused(BootFact::NoExtTseg(read)) => {
                write!(f, "boot refused: register 50 read {read:02x}")
            }
            Status::WriteFault => write!(f, "write failed"),
            Status::TraceRefused(line, why) => {
                let word = word_of(*why);
                write!(f, "trace refused at line {line}: {word}")
            }
            Status::NoMemory => write!(f, "no memory"),
        }
    }
}
