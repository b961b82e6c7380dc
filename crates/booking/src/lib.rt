// start, session, announce and preview: the register's calls over files.
#![tactic(auto)]

mod outcome;

use base::Cause;
use calls::{Answer, Call};
use commands::Opt;
use files::Trouble;
use filing::{NewFiles, Targets};
use journal::Entry;
use keeping::Kept;
use layout::REGISTER_LENGTH;
use outcome::{Outcome, Slip};
use reading::Register;
use report::{AddedRows, Written};
use space::OUTPUT_LENGTH;
use system::{Stream, System};
use terminal::{Meaning, Status};
use text::Text;
use wording::CallRefusal;

// Room for what an accepted call did.
const ROOM: usize = 65536;

// A call that was made: the register before it and behind it.
#[derive(Clone, Copy)]
struct Booking<'a> {
    before: Register<'a>,
    after: Register<'a>,
    entry: Entry,
}

// Whether a call was refused for its calendar or its register, which cannot be used: that says nothing of the call.
fn is_of_files(cause: Cause) -> bool {
    matches!(
        cause,
        Cause::CalendarLength
            | Cause::CalendarTail
            | Cause::CalendarMonth(_)
            | Cause::RegisterLength
            | Cause::RegisterForm
    )
}

// What has moved with an accepted call.
fn moved(system: &System) -> &'static str {
    let has_file = commands::has(system, Opt::File);
    let has_journal = commands::has(system, Opt::Journal);
    match (has_file, has_journal) {
        (true, true) => "register, journal and file of series",
        (true, false) => "register and file of series",
        (false, true) => "register and journal",
        (false, false) => "the register",
    }
}

impl<'a> Booking<'a> {
    fn outcome(self, answer: Answer) -> Outcome<'a> {
        Outcome::of(self.before, self.after, self.entry.call, answer)
    }

    fn slip(self, system: &System) -> Option<Slip> {
        let answer = self.entry.answer.ok()?;
        Slip::found(system, self.outcome(answer))
    }

    // Looks before anything is written how the journal is for the call, and asks about a close that may be a slip. A call that
    // the journal has already was asked about then, and one that is refused for its files is not kept.
    fn look(self, system: &System, room: &mut [u8]) -> Result<Kept, Trouble> {
        let Booking { before, entry, .. } = self;
        if entry.answer.is_err_and(is_of_files) {
            return Ok(Kept::Unasked);
        }
        let kept = keeping::look(system, before, entry, room)?;
        let is_sure = matches!(kept, Kept::Already) || commands::has(system, Opt::Yes);
        match self.slip(system) {
            Some(slip) if !is_sure => Err(slip.complain(system)),
            _ => Ok(kept),
        }
    }

    fn refuse(self, system: &System, cause: Cause) -> Result<Status, Trouble> {
        terminal::refuse(
            system,
            CallRefusal {
                register: self.before,
                cause,
                call: self.entry.call,
            },
        )
    }

    // Keeps a refused call, gives the locks back and tells the refusal.
    fn turn_down(
        self,
        system: &System,
        new: NewFiles<'_>,
        kept: Kept,
        cause: Cause,
    ) -> Result<Status, Trouble> {
        let recorded = kept.record(system, self.entry);
        new.release(system);
        recorded?;
        self.refuse(system, cause)
    }

    // Carries an accepted call out. The journal has the line before the register has the call: a run that is cut off between
    // leaves a line that the same command, run again, finds there.
    fn carry_out(
        self,
        system: &System,
        new: NewFiles<'_>,
        kept: Kept,
        answer: Answer,
    ) -> Result<Status, Trouble> {
        let saved = new.save(system, self.after)?;
        let length = saved.length();
        if let Err(trouble) = kept.record(system, self.entry) {
            saved.discard(system);
            return Err(trouble);
        }
        saved.install(system)?;
        self.tell(system, answer, length)
    }

    // Tells what an accepted call did, and of the file of series, if one was asked for, what was written.
    fn tell(
        self,
        system: &System,
        answer: Answer,
        length: Option<usize>,
    ) -> Result<Status, Trouble> {
        let mut out = Text::<ROOM>::new();
        out.say(self.outcome(answer));
        if let (Some(length), Some(name)) = (length, commands::value(system, Opt::File)) {
            let day = self.after.day();
            out.say("\n");
            out.put(name.as_bytes());
            out.say(Written { day, length });
        }
        terminal::tell_bytes(system, out.as_bytes(), moved(system))
    }

    // Tells what the session would answer, and each row that it would add.
    #[inline(never)]
    fn foresee(self, system: &System, answer: Answer) -> Result<Status, Trouble> {
        let mut out = Text::<OUTPUT_LENGTH>::new();
        let outcome = self.outcome(answer);
        out.say(outcome);
        if let Outcome::Listed(changes) = outcome {
            out.say(AddedRows {
                register: self.after,
                count: changes.totals.added,
            });
        }
        if self.slip(system).is_some() {
            out.say("\nsession will ask for --yes: look at the close again\n");
        }
        terminal::say_bytes(system, Stream::Output, out.as_bytes(), Status::Done)
    }
}

// Only a start may do without a register file: there is none before the first.
// Kept: terminal::register_or_none takes each missing one as empty; one for both would be handed what a missing one means.
fn load_register(
    system: &System,
    call: Call,
    path: &[u8],
    register: &mut [u8],
) -> Result<(), Trouble> {
    match files::load(system, path, register)?.map(|file| file.len()) {
        None if matches!(call, Call::Start(_, _)) => Ok(()),
        None => Err(files::complain(
            system,
            path,
            "there is no such register: look at the name\n  \
            a lost one is made again by its journal: sindhopul replay CALENDAR JOURNAL REGISTER",
        )),
        found => terminal::whole(system, path, register.len(), found),
    }
}

// The call on the register of word 3, both of whose new files are made first.
fn make(system: &System, call: Call, calendar: &[u8], room: &mut [u8]) -> Result<Status, Trouble> {
    let targets = Targets::named(system)?;
    let new = targets.lock(system)?;
    let mut register = space::zeros::<REGISTER_LENGTH>();
    if let Err(trouble) = load_register(system, call, targets.register(), &mut register) {
        new.release(system);
        return Err(trouble);
    }
    let before = register;
    let answer = calling::make(calendar, &mut register, call);
    let booking = Booking {
        before: Register {
            calendar,
            bytes: &before,
        },
        after: Register {
            calendar,
            bytes: &register,
        },
        entry: Entry { call, answer },
    };
    match (booking.look(system, room), answer) {
        (Ok(kept), Ok(answer)) => booking.carry_out(system, new, kept, answer),
        (Ok(kept), Err(cause)) => booking.turn_down(system, new, kept, cause),
        (Err(trouble), _) => {
            new.release(system);
            Err(trouble)
        }
    }
}

// Day and close of a start or a session.
fn day_and_close(system: &System) -> Result<(u32, u32), Trouble> {
    let day = terminal::number(system, 4, Meaning::Day)?;
    let close = terminal::number(system, 5, Meaning::Close)?;
    Ok((day, close))
}

// `room` is for the text of a journal, here and below.
pub fn start(system: &System, calendar: &[u8], room: &mut [u8]) -> Result<Status, Trouble> {
    let (day, close) = day_and_close(system)?;
    make(system, Call::Start(day, close), calendar, room)
}

pub fn session(system: &System, calendar: &[u8], room: &mut [u8]) -> Result<Status, Trouble> {
    let (day, close) = day_and_close(system)?;
    make(system, Call::Session(day, close), calendar, room)
}

pub fn announce(system: &System, calendar: &[u8], room: &mut [u8]) -> Result<Status, Trouble> {
    let month = terminal::number(system, 4, Meaning::Month)?;
    let price = terminal::number(system, 5, Meaning::Price)?;
    make(system, Call::Announce(month, price), calendar, room)
}

// What a session would do to the register, which stays as it is.
pub fn preview(system: &System, register: Register<'_>) -> Result<Status, Trouble> {
    let (day, close) = day_and_close(system)?;
    let call = Call::Session(day, close);
    let copy = <[u8; REGISTER_LENGTH]>::try_from(register.bytes);
    let mut copy = copy.unwrap_or_else(|_| space::zeros());
    let answer = calling::make(register.calendar, &mut copy, call);
    let booking = Booking {
        before: register,
        after: Register {
            calendar: register.calendar,
            bytes: &copy,
        },
        entry: Entry { call, answer },
    };
    match answer {
        Ok(answer) => booking.foresee(system, answer),
        Err(cause) => booking.refuse(system, cause),
    }
}
