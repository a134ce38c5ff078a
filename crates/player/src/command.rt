ghost use Rattle.std.specs.Prelude.{◌≡◌};
ghost use Rattle.player.specs.Words.{command_of};

/// What the words of a command line ask for.
#[derive(Clone, Copy, Debug, PartialEq, Eq)]
pub(crate) enum Command {
    /// Play a log, and write the lines of its replies.
    Replay,
    /// Play a log call by call in order, and write the lines of its replies.
    Ref,
    /// Write the text of a log.
    List,
    /// Write the log of a text.
    Asm,
    /// Write whether a listing covers its hazards, and whether it allows an order.
    Audit,
}

/// The command that the words are, each word of its own: none for all others.
pub(crate) fn command_of(words: &[String]) -> Option<Command>
    ensures { result ≡ command_of words.now }
{
    match words {
        [word] => match word.as_str() {
            "replay" => Some(Command::Replay),
            "ref" => Some(Command::Ref),
            "list" => Some(Command::List),
            "asm" => Some(Command::Asm),
            "audit" => Some(Command::Audit),
            _ => None,
        },
        _ => None,
    }
}
