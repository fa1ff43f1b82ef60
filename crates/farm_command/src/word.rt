//! The options and operands of the subcommands.

ghost use Rattle.std.specs.Prelude.{◌≡◌};
ghost use Rattle.farm_command.specs.CommandLine.{id_of};

use std::fmt;

/// An option with a value, or the operands.
#[derive(Clone, Copy, Debug)]
pub enum Word {
    Site,
    Name,
    Client,
    Peer,
    Answers,
    Status,
    Token,
    Record,
    Book,
    Log,
    LogFormat,
    From,
    To,
    /// The operands of `audit` and `schedule`.
    Records,
    /// The two operands of `book`.
    TaskAndFile,
}

impl Word {
    /// Its name for `clap`, which is that of the option.
    pub fn id(self) -> &'static str
        ensures { result.now ≡ id_of self }
    {
        match self {
            Word::Site => "site",
            Word::Name => "name",
            Word::Client => "client",
            Word::Peer => "peer",
            Word::Answers => "answers",
            Word::Status => "status",
            Word::Token => "token",
            Word::Record => "record",
            Word::Book => "book",
            Word::Log => "log",
            Word::LogFormat => "log-format",
            Word::From => "from",
            Word::To => "to",
            Word::Records => "records",
            Word::TaskAndFile => "task-and-file",
        }
    }

    /// How help names its value.
    pub fn value_name(self) -> &'static str {
        match self {
            Word::Name | Word::Client | Word::Peer => "NAME",
            Word::Site | Word::Token | Word::Record | Word::Book => "FILE",
            Word::Status => "ADDRESS",
            Word::Answers => "N",
            Word::Log => "LEVEL",
            Word::LogFormat => "FORMAT",
            Word::From | Word::To => "STEP",
            Word::Records => "RECORD",
            Word::TaskAndFile => "TASK FILE",
        }
    }
}

impl fmt::Display for Word {
    fn fmt<W: fmt::Write>(&self, f: &mut fmt::Formatter<W>) -> fmt::Result {
        match self {
            Word::Records => f.write_str("RECORD.."),
            Word::TaskAndFile => f.write_str("TASK FILE"),
            Word::Site
            | Word::Name
            | Word::Client
            | Word::Peer
            | Word::Answers
            | Word::Status
            | Word::Token
            | Word::Record
            | Word::Book
            | Word::Log
            | Word::LogFormat
            | Word::From
            | Word::To => { write!(f, "--{} {}", self.id(), self.value_name()) }
        }
    }
}
