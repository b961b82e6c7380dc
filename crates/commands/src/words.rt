// The words that the program was started with.
//
// Options may stand anywhere. The word behind an option that has a value is that value unless it is an option itself.
ghost use Rattle.std.specs.Prelude.{◌≢◌, ◌<◌, [], IfSome};

use crate::options;
use crate::options::Opt;
use crate::table::Command;
use system::{PATH_MAX, System};
use text::Text;

// An argument; empty where there is none, or where it does not fit.
// Kept: no Option: an empty argument names nothing either, so whoever asks makes the one of the other.
fn argument(system: &System, at: usize) -> Text<PATH_MAX> {
    system.argument(at).unwrap_or_else(Text::new)
}

// Whether a name is a dash, which stands for a standard stream.
pub fn is_stream(name: &[u8]) -> bool {
    matches!(name, [b'-'])
}

// Whether a word is an option. A dash alone is none.
fn is_option(word: &[u8]) -> bool {
    matches!(word, [b'-', _, ..])
}

fn option_at(system: &System, at: usize) -> Option<Opt> {
    Opt::named(argument(system, at).as_bytes())
}

// Whether a word is an option alone whose value stands behind it.
fn wants_value(word: &[u8]) -> bool {
    let (_, value) = options::parts(word);
    Opt::named(word).is_some_and(|option| option.file().is_some()) && value.is_none()
}

fn is_value(system: &System, at: usize) -> bool {
    1 < at
        && wants_value(argument(system, at - 1).as_bytes())
        && !is_option(argument(system, at).as_bytes())
}

fn is_word(system: &System, at: usize) -> bool {
    !is_option(argument(system, at).as_bytes()) && !is_value(system, at)
}

// How many words there are.
pub fn count(system: &System) -> usize {
    (0..system.argument_count())
        .filter(|&at| is_word(system, at))
        .count()
}

// Word i; empty where there is none, or where it does not fit.
// Kept: no Option: `usage` has tested that the words are there, and whoever asks would make an empty path of a None.
pub fn word(system: &System, i: usize) -> Text<PATH_MAX> {
    let at = (0..system.argument_count())
        .filter(|&at| is_word(system, at))
        .nth(i);
    match at {
        Some(at) => argument(system, at),
        None => Text::new(),
    }
}

pub fn command(system: &System) -> Option<Command> {
    Command::named(word(system, 1).as_bytes())
}

// What a message begins with where the command changes files, so that it says first what happened to them. A command that there
// is not may have been meant as one that does.
pub fn lead(system: &System) -> &'static str {
    if command(system).is_none_or(Command::changes) {
        "nothing was changed: "
    } else {
        ""
    }
}

// The first argument that is this option.
fn place_of(system: &System, option: Opt) -> Option<usize>
    ensures { IfSome result (λ at. at < usize.MAX) }
{
    (1..system.argument_count()).find(|&at| option_at(system, at) == Some(option))
}

pub fn has(system: &System, option: Opt) -> bool {
    place_of(system, option).is_some()
}

// The value of an option; none where it has none, or an empty one.
pub fn value(system: &System, option: Opt) -> Option<Text<PATH_MAX>>
    ensures { IfSome result (λ value. value ≢ []) }
{
    let at = place_of(system, option)?;
    let word = argument(system, at);
    let (_, behind) = options::parts(word.as_bytes());
    let value = match behind {
        Some(behind) => {
            let mut value = Text::new();
            value.put(behind);
            value
        }
        None if is_value(system, at + 1) => argument(system, at + 1),
        None => return None,
    };
    if value.as_bytes().is_empty() {
        None
    } else {
        Some(value)
    }
}

// An option that is asked for without its value. An empty value, as of a variable that is not set, would silently ask for
// nothing.
pub fn lacking_value(system: &System) -> Option<Opt> {
    options::TABLE.iter().map(|row| row.option).find(|&option| option.file().is_some()
        && has(system, option)
        && value(system, option).is_none())
}

// Whether an argument is an option that the command does not take, or that stood there before.
fn is_wrong(system: &System, command: Command, at: usize) -> bool {
    if !is_option(argument(system, at).as_bytes()) {
        return false;
    }
    match option_at(system, at) {
        Some(option) => !command.takes(option)
            || (1..at).any(|before| option_at(system, before) == Some(option)),
        None => true,
    }
}

// The first option that the command does not take, or that is there twice, as it was given.
pub fn wrong_option(system: &System, command: Command) -> Option<Text<PATH_MAX>> {
    let at = (1..system.argument_count()).find(|&at| is_wrong(system, command, at))?;
    Some(argument(system, at))
}
