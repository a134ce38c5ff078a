//! What the words of a command line ask for.

ghost use Rattle.std.specs.Prelude.{◌≡◌, ◌≤◌, IfSome};
ghost use Rattle.dx_types.specs.declared.limits.TheConstants.{MAX_ROUNDS};
ghost use Rattle.player.specs.Tasks.{InRange, rounds_of, generation, task_of};

use crate::command::{Command, command_of};
use dx_types::limits::MAX_ROUNDS;
use text_words::read_u32;

/// What is to be done.
#[derive(Clone, Copy, Debug, PartialEq, Eq)]
pub(crate) enum Task {
    /// What a command makes of its input.
    Answer(Command),
    /// Play the generated log of so many rounds, and write a line on it.
    Generate { rounds: u32 },
}

/// The task that the words are, each word of its own: none for all others.
pub(crate) fn task_of(words: &[String]) -> Option<Task>
    ensures value { result ≡ task_of words.now }
    ensures rounds { IfSome result InRange }
{
    match words {
        [word, number] => generation(word.as_str(), number.as_str().as_bytes()),
        _ => Some(Task::Answer(command_of(words)?)),
    }
}

fn generation(word: &str, number: &[u8]) -> Option<Task>
    ensures value { result ≡ generation word.now number.now }
    ensures rounds { IfSome result InRange }
{
    match word {
        "gen" => Some(Task::Generate {
            rounds: rounds_of(number)?,
        }),
        _ => None,
    }
}

fn rounds_of(word: &[u8]) -> Option<u32>
    ensures value { result ≡ rounds_of word.now }
    ensures least { IfSome result (λ n. 1 ≤ n) }
    ensures most { IfSome result (λ n. n ≤ MAX_ROUNDS) }
{
    let rounds = read_u32(word)?;
    if rounds == 0 || rounds > MAX_ROUNDS {
        return None;
    }
    Some(rounds)
}
