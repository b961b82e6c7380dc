// What an accepted call did, and whether its close may be a slip.
use calls::{Answer, Call};
use files::Trouble;
use reading::Register;
use report::{Announced, Changes, FarClose};
use std::fmt;
use std::fmt::Display;
use system::System;
use text::Points;

#[derive(Clone, Copy)]
pub enum Outcome<'a> {
    Listed(Changes<'a>),
    Announced(Announced<'a>),
}

impl<'a> Outcome<'a> {
    // Of a call with its answer, by the register before it and behind it.
    pub fn of(
        before: Register<'a>,
        after: Register<'a>,
        call: Call,
        answer: Answer,
    ) -> Outcome<'a> {
        let (Call::Start(time, level) | Call::Session(time, level) | Call::Announce(time, level)) =
            call;
        match answer {
            Answer::Listed(totals) => Outcome::Listed(Changes {
                before,
                after,
                totals,
                close: level,
            }),
            Answer::Announced(waiting) => Outcome::Announced(Announced {
                before,
                month: time,
                price: level,
                waiting,
            }),
        }
    }
}

impl Display for Outcome<'_> {
    fn fmt<W: fmt::Write>(&self, f: &mut fmt::Formatter<W>) -> fmt::Result {
        match self {
            Outcome::Listed(changes) => changes.fmt(f),
            Outcome::Announced(announced) => announced.fmt(f),
        }
    }
}

// Why a close may be a slip.
#[derive(Clone, Copy)]
pub enum Slip {
    // It lies outside the nearest month's ladder.
    Far(FarClose),
    // It was written without a point, and read in hundredths.
    NoPoint(u32),
}

impl Slip {
    // Of the close of word 5.
    pub fn found(system: &System, outcome: Outcome<'_>) -> Option<Slip> {
        let Outcome::Listed(changes) = outcome else {
            return None;
        };
        let Changes {
            before,
            after,
            totals,
            close,
        } = changes;
        if let Some(far) = FarClose::found(before, after, close, totals.added) {
            return Some(Slip::Far(far));
        }
        (!terminal::has_point(system, 5)).then_some(Slip::NoPoint(close))
    }

    // Asks for a yes to it.
    pub fn complain(self, system: &System) -> Trouble {
        match self {
            Slip::Far(far) => files::complain(system, b"the close", far),
            Slip::NoPoint(close) => {
                let close = Points(close);
                files::complain(
                    system,
                    commands::word(system, 5).as_bytes(),
                    format_args!(
                        "has no point and was read as {close}\n  \
                        if that is the close, write {close}, or add --yes"
                    ),
                )
            }
        }
    }
}
