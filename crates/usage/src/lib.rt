// The first words: help, the version, and bad use, told in one line with the usage of the command behind it.
#![tactic(auto)]

use commands::{Command, Form, Opt, Usage};
use files::Trouble;
use help::{Help, Version};
use std::fmt;
use std::fmt::Display;
use system::{Stream, System};
use terminal::Status;
use text::{Plural, Text};

// Room for a message with a word in it. Each function here that has a room is a call of its own, so that it is on no other's stack.
const ROOM: usize = 8192;

// Room for help, of which the longest has 2,022 bytes.
const HELP: usize = 4096;

// The usage of the command, or where all commands are told.
#[derive(Clone, Copy)]
struct Way(Option<Command>);

impl Display for Way {
    fn fmt<W: fmt::Write>(&self, f: &mut fmt::Formatter<W>) -> fmt::Result {
        match self.0 {
            None => f.write_str("\n  sindhopul help tells all commands\n"),
            Some(command) => {
                let usage = Usage {
                    command,
                    lead: "  ",
                };
                write!(f, "\n{usage}  sindhopul {command} --help says more\n")
            }
        }
    }
}

// Says what was wrong, and how to go on.
fn wrong(system: &System, command: Option<Command>, what: &[u8]) -> Trouble {
    let mut out = Text::<ROOM>::new();
    out.say(commands::lead(system));
    out.put(what);
    out.say(Way(command));
    system.tell(out.as_bytes());
    Trouble
}

// The same of words without one that was given.
// Kept: `files::complain` is alike, but tells another trouble.
#[cold]
#[inline(never)]
fn wrong_words(system: &System, command: Option<Command>, what: impl Display + Drop) -> Trouble {
    let mut words = Text::<ROOM>::new();
    words.say(what);
    wrong(system, command, words.as_bytes())
}

#[cold]
#[inline(never)]
fn no_command(system: &System, word: &[u8]) -> Trouble {
    if word.is_empty() {
        return wrong_words(system, None, "a command is missing");
    }
    let near = Command::nearest(word);
    let mut what = Text::<ROOM>::new();
    what.say("there is no command ");
    what.put(word);
    if let Some(near) = near {
        what.say(format_args!(": did you mean {near}?"));
    }
    wrong(system, near, what.as_bytes())
}

#[cold]
#[inline(never)]
fn no_option(system: &System, command: Command, word: &[u8]) -> Trouble {
    let mut what = Text::<ROOM>::new();
    what.say("there is no option ");
    what.put(word);
    if let Some(near) = Opt::nearest(word) {
        what.say(format_args!(": did you mean {near}?"));
    }
    wrong(system, Some(command), what.as_bytes())
}

// An option that the command does not take, or that stood there before.
#[cold]
#[inline(never)]
fn wrong_option(system: &System, command: Command, word: &[u8]) -> Trouble {
    let Some(option) = Opt::named(word) else {
        return no_option(system, command, word);
    };
    let mut what = Text::<ROOM>::new();
    if command.takes(option) {
        what.put(word);
        what.say(" stands there twice");
    } else {
        what.say(format_args!("{command} takes no "));
        what.put(word);
    }
    wrong(system, Some(command), what.as_bytes())
}

#[inline(never)]
fn check_options(system: &System, command: Command) -> Result<(), Trouble> {
    if let Some(word) = commands::wrong_option(system, command) {
        return Err(wrong_option(system, command, word.as_bytes()));
    }
    match commands::lacking_value(system) {
        Some(option) => Err(wrong_words(
            system,
            Some(command),
            format_args!("{option} wants the name of a file behind it"),
        )),
        None => Ok(()),
    }
}

// The form that was meant has n words more.
fn missing(system: &System, command: Command, form: Form, n: usize) -> Trouble {
    let words = if n == 1 { "word is" } else { "words are" };
    wrong_words(
        system,
        Some(command),
        format_args!("{command} wants{form}: {n} {words} missing"),
    )
}

// The last n words are too many, from this one on.
#[cold]
#[inline(never)]
fn too_many(system: &System, command: Command, n: usize, first: &[u8]) -> Trouble {
    let mut what = Text::<ROOM>::new();
    let s = Plural(text::narrowed(n));
    what.say(format_args!("{n} word{s} too many, from "));
    what.put(first);
    what.say(" on");
    wrong(system, Some(command), what.as_bytes())
}

// That there are as many words as some form of the command wants.
#[inline(never)]
fn check_words(system: &System, command: Command) -> Result<(), Trouble> {
    let words = commands::count(system);
    let form = command.form(words);
    let least = form.least();
    let most = form.most();
    if words < least {
        return Err(missing(system, command, form, least - words));
    }
    if most < words {
        let first = commands::word(system, most);
        return Err(too_many(system, command, words - most, first.as_bytes()));
    }
    Ok(())
}

// Whether word i is a dash where only a file may stand.
fn lacks_file(system: &System, command: Command, i: usize) -> bool {
    commands::is_stream(commands::word(system, i).as_bytes())
        && command.file(i).is_some_and(|file| !file.takes_stream)
}

fn is_value_stream(system: &System, option: Opt) -> bool {
    commands::value(system, option).is_some_and(|value| commands::is_stream(value.as_bytes()))
}

// That each word that is a dash may stand for a standard stream.
#[inline(never)]
fn check_files(system: &System, command: Command) -> Result<(), Trouble> {
    if (2..5).any(|i| lacks_file(system, command, i))
        || is_value_stream(system, Opt::Journal)
        || is_value_stream(system, Opt::File)
    {
        return Err(wrong_words(
            system,
            Some(command),
            format_args!("- is a standard stream: {command} wants a file there"),
        ));
    }
    Ok(())
}

fn is_help(word: &[u8]) -> bool {
    word == b"help".as_slice()
}

// Says what was asked for, which has room here.
#[inline(never)]
fn answer(system: &System, what: impl Display + Drop) -> Result<(), Trouble> {
    let mut out = Text::<HELP>::new();
    out.say(what);
    terminal::say_bytes(system, Stream::Output, out.as_bytes(), Status::Done)?;
    Ok(())
}

// Says help on the command that word i names, or on all where there is no such word.
fn help_on(system: &System, i: usize) -> Result<(), Trouble> {
    let word = commands::word(system, i);
    let word = word.as_bytes();
    let command = Command::named(word);
    if command.is_none() && !word.is_empty() && !is_help(word) {
        return Err(no_command(system, word));
    }
    answer(system, Help(command))
}

// Tells all commands, where there is no word.
#[cold]
#[inline(never)]
fn tell_overview(system: &System) {
    let mut out = Text::<HELP>::new();
    out.say(Help(None));
    system.tell(out.as_bytes());
}

// The command that the words name, where they are as it takes them; none where help or the version was asked for, which is said.
#[inline(never)]
pub fn first_words(system: &System) -> Result<Option<Command>, Trouble> {
    if system.argument_count() < 2 {
        tell_overview(system);
        return Err(Trouble);
    }
    if commands::has(system, Opt::Version) {
        answer(system, Version)?;
        return Ok(None);
    }
    if is_help(commands::word(system, 1).as_bytes()) {
        help_on(system, 2)?;
        return Ok(None);
    }
    if commands::has(system, Opt::Help) {
        help_on(system, 1)?;
        return Ok(None);
    }
    let Some(command) = commands::command(system) else {
        return Err(no_command(system, commands::word(system, 1).as_bytes()));
    };
    check_options(system, command)?;
    check_words(system, command)?;
    check_files(system, command)?;
    Ok(Some(command))
}
