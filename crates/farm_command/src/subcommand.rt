//! The subcommands.

ghost use Rattle.std.specs.Prelude.{◌≡◌, ◌≢◌, IfNone, IfSome};
ghost use Rattle.farm_command.specs.CommandLine.{name_of};
ghost use Rattle.farm_command.specs.declared.subcommand.Subcommand.{Subcommand as SubcommandValue};

/// A subcommand.
#[derive(Clone, Copy)]
pub enum Subcommand {
    Replay,
    Report,
    Relay,
    Front,
    Send,
    Check,
    Audit,
    Schedule,
    Book,
    Picture,
    Words,
}

/// The subcommand of this name, if there is one.
pub fn subcommand_named(name: &str) -> Option<Subcommand>
    ensures some { IfSome result (λ subcommand. name.now ≡ name_of subcommand) }
    ensures none { IfNone result ((subcommand : SubcommandValue) → name.now ≢ name_of subcommand) }
{
    match name {
        "replay" => Some(Subcommand::Replay),
        "report" => Some(Subcommand::Report),
        "relay" => Some(Subcommand::Relay),
        "front" => Some(Subcommand::Front),
        "send" => Some(Subcommand::Send),
        "check" => Some(Subcommand::Check),
        "audit" => Some(Subcommand::Audit),
        "schedule" => Some(Subcommand::Schedule),
        "book" => Some(Subcommand::Book),
        "picture" => Some(Subcommand::Picture),
        "words" => Some(Subcommand::Words),
        _ => None,
    }
}
