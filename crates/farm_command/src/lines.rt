//! The command line of all programs, in clap's terms.

ghost use Rattle.std.specs.Prelude.{◌≡◌, ◌∷◌, [], codes, false, IfOk};
ghost use Rattle.clap.specs.declared.builder.command.Command.TheViews.{out-Command as fields_of};
ghost use Rattle.clap.specs.Simple.{new_app, with_rule, with_subcommand};
ghost use Rattle.clap.specs.Walk.{rule_of};
ghost use Rattle.clap.specs.Words.{app_of};
ghost use Rattle.farm_command.specs.CommandLine.{command_line, line_of, program, records_rule, skipped_option, with_lines, with_options};
ghost use Rattle.farm_command.specs.Pieces.{rule_of_piece, with_pieces};
ghost use Rattle.farm_command.specs.declared.word.Word.TheVariants as word;
ghost use Rattle.farm_command.specs.declared.subcommand.Subcommand.TheVariants as sub;

use crate::subcommand::Subcommand;
use crate::word::Word;
use clap::{Arg, ArgAction, Command as Line};
use std::alloc::{AllocError, Global};

/// What a subcommand takes, with what help says of it.
#[derive(Clone, Copy)]
enum Piece {
    /// `--NAME VALUE`.
    Option {
        word: Word,
        help: &'static str,
    },
    /// `--NAME`.
    Flag {
        name: &'static str,
        help: &'static str,
    },
    /// As many operands as there are.
    Operands {
        word: Word,
        help: &'static str,
    },
}

/// The version of all programs.
pub const VERSION: &str = "0.1.0";

const SITE: Piece = Piece::Option {
    word: Word::Site,
    help: "The site file",
};

const ANY_SITE: Piece = Piece::Option {
    word: Word::Site,
    help: "The site file; without it the run is over the row site",
};

const ANSWERS: Piece = Piece::Option {
    word: Word::Answers,
    help: "Ends when so many answers were sent; 0, the default, for never",
};

const STATUS: Piece = Piece::Option {
    word: Word::Status,
    help: "Says there what it does, over HTTP: PORT, of this machine alone, or ADDRESS:PORT",
};

const TOKEN: Piece = Piece::Option {
    word: Word::Token,
    help: "The token that farm stop shows; it is made where the file is not there",
};

const RECORD: Piece = Piece::Option {
    word: Word::Record,
    help: "Writes down what happens, behind what the file has: farm audit plays it",
};

const LOG: Piece = Piece::Option {
    word: Word::Log,
    help: "What is told on standard error: off, error, warn, info (the default) or debug",
};

const LOG_FORMAT: Piece = Piece::Option {
    word: Word::LogFormat,
    help: "How that is spelled: text (the default), or logfmt, as key=value",
};

/// The argument of a piece.
fn arg_of<'a>(alloc: Global, piece: Piece) -> Arg<'a>
    ensures rule { rule_of result ≡ rule_of_piece piece }
    ensures local { result.global ≡ false }
{
    match piece {
        Piece::Option { word, help } => Arg::new(alloc, word.id())
            .long(word.id())
            .value_name(word.value_name())
            .help(help),
        Piece::Flag { name, help } => Arg::new(alloc, name)
            .long(name)
            .action(ArgAction::SetTrue)
            .help(help),
        Piece::Operands { word, help } => Arg::new(alloc, word.id())
            .action(ArgAction::Append)
            .value_name(word.value_name())
            .help(help),
    }
}

/// The line with one piece more.
fn with_piece<'a>(line: Line<'a>, alloc: Global, piece: Piece) -> Result<Line<'a>, AllocError>
    requires { (fields_of line).has_globals ≡ false }
    ensures shape { IfOk result (λ made. app_of made ≡ with_rule (app_of line.entry) (rule_of_piece piece)) }
    ensures local { IfOk result (λ made. (fields_of made).has_globals ≡ false) }
{
    line.arg(arg_of(alloc, piece))
}

/// The line of a subcommand that takes these pieces, in their order.
fn line_with<'a>(
    alloc: Global,
    name: &'static str,
    about: &'static str,
    pieces: &[Piece],
) -> Result<Line<'a>, AllocError>
    ensures shape { IfOk result (λ line. app_of line ≡ with_pieces (new_app name.now) pieces.now) }
    ensures local { IfOk result (λ line. (fields_of line).has_globals ≡ false) }
{
    let mut line = Line::new(alloc, name).about(about);
    for piece in pieces {
        line = with_piece(line, alloc, *piece)?;
    }
    Ok(line)
}

/// `replay` or `report`.
fn run_line<'a>(
    alloc: Global,
    name: &'static str,
    about: &'static str,
) -> Result<Line<'a>, AllocError>
    ensures shape { IfOk result (λ line. app_of line
        ≡ with_rule (with_options name.now (word.Site ∷ [])) skipped_option) }
    ensures local { IfOk result (λ line. (fields_of line).has_globals ≡ false) }
{
    let skipped = Piece::Flag {
        name: "skipped",
        help: "Names the steps that were skipped, on standard error",
    };
    line_with(alloc, name, about, &[ANY_SITE, skipped])
}

/// `relay`.
fn relay_line<'a>(alloc: Global) -> Result<Line<'a>, AllocError>
    ensures shape { IfOk result (λ line. app_of line ≡ line_of sub.Relay) }
    ensures local { IfOk result (λ line. (fields_of line).has_globals ≡ false) }
{
    let name = Piece::Option {
        word: Word::Name,
        help: "The relay that serves",
    };
    let pieces = [SITE, name, ANSWERS, STATUS, TOKEN, RECORD, LOG, LOG_FORMAT];
    line_with(
        alloc,
        "relay",
        "Serves as a relay of the site, over TCP",
        &pieces,
    )
}

/// `front`.
fn front_line<'a>(alloc: Global) -> Result<Line<'a>, AllocError>
    ensures shape { IfOk result (λ line. app_of line ≡ line_of sub.Front) }
    ensures local { IfOk result (λ line. (fields_of line).has_globals ≡ false) }
{
    let book = Piece::Option {
        word: Word::Book,
        help: "The file with the account book; without it the book is lost with the process",
    };
    let clock = Piece::Flag {
        name: "clock-behind",
        help: "Serves although the system's clock stands more than a day behind the book",
    };
    let change = Piece::Flag {
        name: "change-terms",
        help: "Changes the terms of the book by one entry, where those of the site do not hold in it",
    };
    let pieces = [
        SITE, book, ANSWERS, STATUS, TOKEN, RECORD, LOG, LOG_FORMAT, clock, change,
    ];
    line_with(
        alloc,
        "front",
        "Serves as all fronts of the site, over TCP",
        &pieces,
    )
}

/// `send`.
fn send_line<'a>(alloc: Global) -> Result<Line<'a>, AllocError>
    ensures shape { IfOk result (λ line. app_of line ≡ line_of sub.Send) }
    ensures local { IfOk result (λ line. (fields_of line).has_globals ≡ false) }
{
    let client = Piece::Option {
        word: Word::Client,
        help: "The client that sends",
    };
    let peer = Piece::Option {
        word: Word::Peer,
        help: "The node it sends to",
    };
    let about = "Sends messages, one in hexadecimal on a line, and prints their answers";
    let pieces = [SITE, client, peer, RECORD, LOG, LOG_FORMAT];
    line_with(alloc, "send", about, &pieces)
}

/// `check`.
fn check_line<'a>(alloc: Global) -> Result<Line<'a>, AllocError>
    ensures shape { IfOk result (λ line. app_of line ≡ line_of sub.Check) }
    ensures local { IfOk result (λ line. (fields_of line).has_globals ≡ false) }
{
    let about =
        "Says what a site comes to and what may look wrong in it, or where its fault stands";
    line_with(alloc, "check", about, &[SITE])
}

/// `audit` or `schedule`.
fn audit_line<'a>(
    alloc: Global,
    name: &'static str,
    about: &'static str,
) -> Result<Line<'a>, AllocError>
    ensures shape { IfOk result (λ line. app_of line
        ≡ with_rule (with_options name.now (word.Site ∷ word.Book ∷ [])) records_rule) }
    ensures local { IfOk result (λ line. (fields_of line).has_globals ≡ false) }
{
    let book = Piece::Option {
        word: Word::Book,
        help: "What farm book export printed, if the fronts have their book on disk",
    };
    let records = Piece::Operands {
        word: Word::Records,
        help: "What a process of the farm wrote down",
    };
    line_with(alloc, name, about, &[SITE, book, records])
}

/// `book`.
fn book_line<'a>(alloc: Global) -> Result<Line<'a>, AllocError>
    ensures shape { IfOk result (λ line. app_of line ≡ line_of sub.Book) }
    ensures local { IfOk result (λ line. (fields_of line).has_globals ≡ false) }
{
    let operands = Piece::Operands {
        word: Word::TaskAndFile,
        help: "create, check, report or export, and the file with the book; or backup, it, and a new file",
    };
    let about = "Makes, checks, prints and copies an account book on disk";
    line_with(alloc, "book", about, &[SITE, operands])
}

/// `picture`.
fn picture_line<'a>(alloc: Global) -> Result<Line<'a>, AllocError>
    ensures shape { IfOk result (λ line. app_of line ≡ line_of sub.Picture) }
    ensures local { IfOk result (λ line. (fields_of line).has_globals ≡ false) }
{
    let from = Piece::Option {
        word: Word::From,
        help: "The first step that is drawn",
    };
    let to = Piece::Option {
        word: Word::To,
        help: "The last step that is drawn",
    };
    line_with(
        alloc,
        "picture",
        "Draws the run, as an SVG",
        &[ANY_SITE, from, to],
    )
}

/// `words`.
fn words_line<'a>(alloc: Global) -> Line<'a>
    ensures shape { app_of result ≡ line_of sub.Words }
    ensures local { (fields_of result).has_globals ≡ false }
{
    Line::new(alloc, "words").about("Prints the messages that it reads in words")
}

/// The program without a subcommand.
fn program<'a>(alloc: Global) -> Result<Line<'a>, AllocError>
    ensures { IfOk result (λ line. app_of line ≡ program) }
{
    let bare = Line::new(alloc, "farm")
        .about("Diameter relays and fronts for online charging")
        .bin_name("farm")?;
    Ok(
        bare.version(VERSION)
            .no_binary_name(true)
            .disable_help_subcommand(true),
    )
}

/// A subcommand, with its options and operands.
fn line_for<'a>(alloc: Global, subcommand: Subcommand) -> Result<Line<'a>, AllocError>
    ensures shape { IfOk result (λ line. app_of line ≡ line_of subcommand) }
    ensures local { IfOk result (λ line. (fields_of line).has_globals ≡ false) }
{
    match subcommand {
        Subcommand::Replay => {
            let about = "Prints what clients received, an end line, and the report (the default)";
            run_line(alloc, "replay", about)
        }
        Subcommand::Report => run_line(alloc, "report", "Prints the report alone"),
        Subcommand::Relay => relay_line(alloc),
        Subcommand::Front => front_line(alloc),
        Subcommand::Send => send_line(alloc),
        Subcommand::Check => check_line(alloc),
        Subcommand::Audit => {
            let about = "Plays the records of a farm, and says what they come to";
            audit_line(alloc, "audit", about)
        }
        Subcommand::Schedule => {
            let about = "Prints the order of the records of a farm, as a schedule";
            audit_line(alloc, "schedule", about)
        }
        Subcommand::Book => book_line(alloc),
        Subcommand::Picture => picture_line(alloc),
        Subcommand::Words => Ok(words_line(alloc)),
    }
}

/// The line with one subcommand more.
fn with_line<'a>(
    line: Line<'a>,
    alloc: Global,
    subcommand: Subcommand,
) -> Result<Line<'a>, AllocError>
    ensures { IfOk result (λ made. app_of made
        ≡ with_subcommand (app_of line.entry) (line_of subcommand).top) }
{
    let more = line_for(alloc, subcommand)?;
    line.subcommand(more)
}

/// The line with these subcommands, in their order.
fn with_lines<'a>(
    line: Line<'a>,
    alloc: Global,
    subcommands: &[Subcommand],
) -> Result<Line<'a>, AllocError>
    ensures { IfOk result (λ made. app_of made ≡ with_lines (app_of line.entry) subcommands.now) }
{
    let mut made = line;
    for subcommand in subcommands {
        made = with_line(made, alloc, *subcommand)?;
    }
    Ok(made)
}

/// The command line.
pub fn command_line<'a>(alloc: Global) -> Result<Line<'a>, AllocError>
    ensures { IfOk result (λ line. app_of line ≡ command_line) }
{
    let bare = program(alloc)?;
    let all = [
        Subcommand::Replay,
        Subcommand::Report,
        Subcommand::Relay,
        Subcommand::Front,
        Subcommand::Send,
        Subcommand::Check,
        Subcommand::Audit,
        Subcommand::Schedule,
        Subcommand::Book,
        Subcommand::Picture,
        Subcommand::Words,
    ];
    with_lines(bare, alloc, &all)
}
