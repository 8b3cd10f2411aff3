//! The commands by which a run is walked, and how a line tells one.

ghost use Rattle.std.specs.Prelude.{◌≡◌, option_map};
ghost use Rattle.ps_debug.specs.Commands as commands;
ghost use Rattle.ps_debug.specs.Commands.{command_of};
ghost use Rattle.ps_debug.specs.Words.{trimmed as trimmed_text};

use crate::numbers::{number_in, position_in};
use ps_states::Sought;

/// What a line asks for.
#[derive(Clone, Copy)]
pub enum Command<'c> {
    /// So many steps on, from 1.
    Forward(u64),
    /// So many steps back, from 1.
    Back(u64),
    /// To behind the step of this number; 0 is the start.
    GoTo(u64),
    /// On, to behind the next step that is such as this.
    Until(Sought<'c>),
    /// The state.
    State,
    /// Which contexts may go on, and what the others wait for.
    Waits,
    /// The commands.
    Help,
    /// The end.
    Quit,
}

/// A text without the blanks before and behind it.
pub(crate) fn trimmed(text: &[u8]) -> &[u8]
    ensures { result.now ≡ trimmed_text text.now }
{
    text.trim_ascii()
}

/// How many steps a word asks for: one where there is none. Nothing where it tells no number, or 0.
fn count_in(word: &[u8]) -> Option<u64>
    ensures { result ≡ commands.count_in word.now }
{
    if word.is_empty() {
        return Some(1);
    }
    match number_in(word)? {
        0 => None,
        number => Some(number),
    }
}

/// What a word seeks. Nothing where there is none.
fn sought_in(word: &[u8]) -> Option<Sought<'_>>
    ensures { option_map commands.sought_of result ≡ commands.sought_in word.now }
{
    if word.is_empty() {
        return None;
    }
    match position_in(word) {
        Some(position) => Some(Sought::Place(position)),
        None => Some(Sought::Doing(word)),
    }
}

/// The command of a letter that has a word behind it, if it is one.
fn worded(letter: u8, word: &[u8]) -> Option<Command<'_>>
    ensures { option_map command_of result ≡ commands.worded letter word.now }
{
    match letter {
        b's' => Some(Command::Forward(count_in(word)?)),
        b'b' => Some(Command::Back(count_in(word)?)),
        b'g' => Some(Command::GoTo(number_in(word)?)),
        b'u' => Some(Command::Until(sought_in(word)?)),
        _ => None,
    }
}

/// The command of a letter that stands alone, if it is one.
fn alone(letter: u8) -> Option<Command<'static>>
    ensures { option_map command_of result ≡ commands.alone letter }
{
    match letter {
        b'e' => Some(Command::Until(Sought::Error)),
        b'p' => Some(Command::State),
        b'w' => Some(Command::Waits),
        b'h' => Some(Command::Help),
        b'q' => Some(Command::Quit),
        _ => None,
    }
}

/// The command that a line tells: a letter, and behind blanks a word where the command has one.
/// Blanks before and behind don't matter. Nothing where it tells none.
#[tactic(auto, unfolding(crate::specs::Commands::command_in))]
pub fn parse(line: &[u8]) -> Option<Command<'_>>
    ensures { option_map command_of result ≡ commands.command_in line.now }
{
    match trimmed(line) {
        [letter] => match alone(*letter) {
            Some(command) => Some(command),
            None => worded(*letter, b""),
        },
        [letter, blank, word @ ..] if blank.is_ascii_whitespace() => {
            worded(*letter, trimmed(word))
        }
        _ => None,
    }
}
