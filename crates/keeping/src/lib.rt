// Register and journal belong together: whether a file is the journal of a register, whole and true, and how the register
// stands to it. What is not as it should be is told, with the way on. A call is kept in a journal that is in step.
#![tactic(auto)]

mod recording;

use calls::Call;
use commands::Opt;
use files::Trouble;
use journal::Refused;
use layout::REGISTER_LENGTH;
use matching::{Found, Last, Names, Otherwise, Way};
use reading::Register;
pub use recording::{Kept, Place, look};
use std::fmt::Display;
use system::System;
use text::Text;

// How a register stands to its journal.
#[derive(Clone, Copy)]
pub enum Standing<'a> {
    // The register is exactly what the journal gives, whose last accepted call this is.
    InStep(Option<Last<'a>>),
    // It is so without this call, the journal's last accepted one: a run was cut off before it wrote the register.
    Ahead(Last<'a>),
}

// A journal by its name. What is the matter with it is told on standard error.
#[derive(Clone, Copy)]
pub struct Journal<'a> {
    pub system: &'a System,
    pub path: &'a [u8],
}

impl Journal<'_> {
    pub fn complain(self, what: impl Display + Drop) -> Trouble {
        files::complain(self.system, self.path, what)
    }

    // A line that is none of a journal.
    pub fn complain_line(self, refused: Refused<'_>) -> Trouble {
        self.complain(format_args!(
            "it is no journal, or a line of it was changed: mend it or take it away\n  {refused}"
        ))
    }

    // A line that tells another answer than its call gives.
    pub fn complain_answer(self, other: Otherwise<'_>) -> Trouble {
        self.complain(format_args!("a line tells another answer than its call gives\n  {other}"))
    }

    // Whether what was found in its whole lines is a journal, with its start; where it is to begin it may be one without a call.
    fn check(self, found: Found<'_>, begins: bool) -> Result<(), Trouble> {
        match found.first {
            Some(Call::Session(_, _) | Call::Announce(_, _)) => {
                return Err(self.complain(
                    "its first call is no start: it is not the whole journal of a register",
                ));
            }
            None if !begins => {
                return Err(self.complain(
                    "it has no call: it is no journal, or its start was taken back",
                ));
            }
            _ => {}
        }
        match found.other {
            Some(other) => Err(self.complain_answer(other)),
            None => Ok(()),
        }
    }

    // What lies between it and the register of word 3.
    fn complain_way(self, way: Way<'_>) -> Trouble {
        let calendar = commands::word(self.system, 2);
        let register = commands::word(self.system, 3);
        let file = commands::value(self.system, Opt::File);
        let mut out = Text::<65536>::new();
        let names = Names {
            calendar: calendar.as_bytes(),
            register: register.as_bytes(),
            journal: self.path,
        };
        let file = file.as_ref().map(|file| file.as_bytes());
        way.put(&mut out, names, file);
        files::complain_bytes(self.system, self.path, out.as_bytes())
    }

    // Neither does it give the register without a last line that was cut off, behind which nothing can be appended.
    fn complain_cut(self) -> Trouble {
        let mut out = Text::<65536>::new();
        out.put(
            b"its last line was cut off, and the lines before it do not give the register\n  take that line away and run the command again: sed -i '$d' ",
        );
        quoting::put_word(&mut out, self.path);
        files::complain_bytes(self.system, self.path, out.as_bytes())
    }

    // The whole lines of its bytes, if these are text, and behind them at most a call was cut off; else that is told.
    pub fn whole_lines<'t>(self, bytes: &'t [u8]) -> Result<&'t [u8], Trouble> {
        if !journal::is_text(bytes) {
            return Err(self.complain("it has zeros in it: it is no journal"));
        }
        let whole = journal::whole(bytes);
        if !journal::is_cut(bytes.get(whole.len()..).unwrap_or(&[])) {
            return Err(self.complain(
                "its last line lacks its line feed and is no call: end it or take it away",
            ));
        }
        Ok(whole)
    }

    // How a register stands to its bytes, a last line that was cut off left out. Where it is to begin it may be without a call.
    pub fn judge<'t>(
        self,
        bytes: &'t [u8],
        register: Register<'_>,
        begins: bool,
    ) -> Result<Standing<'t>, Trouble> {
        let text = self.whole_lines(bytes)?;
        let calendar = register.calendar;
        let mut given = space::zeros::<REGISTER_LENGTH>();
        let found = matching::run(text, calendar, &mut given, Some(register.bytes)).map_err(
            |refused| self.complain_line(refused),
        )?;
        self.check(found, begins)?;
        if given.as_slice() == register.bytes {
            return Ok(Standing::InStep(found.last));
        }
        if let Some(last) = unmade(text, register, found.last) {
            return Ok(Standing::Ahead(last));
        }
        if text.len() < bytes.len() {
            return Err(self.complain_cut());
        }
        let given = Register {
            calendar,
            bytes: &given,
        };
        let way = Way::between(given, register, found.passed);
        Err(self.complain_way(way))
    }
}

// The journal's last accepted call, where the register is as it was before it.
pub fn unmade<'a>(text: &[u8], register: Register<'_>, last: Option<Last<'a>>) -> Option<Last<'a>> {
    let last = last?;
    let (before, _) = last.split(text);
    let mut given = space::zeros::<REGISTER_LENGTH>();
    let _ = matching::run(before, register.calendar, &mut given, None);
    (given.as_slice() == register.bytes).then_some(last)
}
