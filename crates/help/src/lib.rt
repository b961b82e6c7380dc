// What the program says of itself: one text a command, behind its usage lines from the table of commands.
#![tactic(auto)]

use commands::{Command, Usage};
use std::fmt;
use std::fmt::Display;

// How a command is used, or how the program is where no command is named.
#[derive(Clone, Copy, PartialEq, Eq, Debug)]
pub struct Help(pub Option<Command>);

impl Display for Help {
    fn fmt<W: fmt::Write>(&self, f: &mut fmt::Formatter<W>) -> fmt::Result {
        let Some(command) = self.0 else {
            return f.write_str(OVERVIEW);
        };
        let usage = Usage { command, lead: "" };
        let text = text(command);
        write!(f, "{usage}{text}")
    }
}

// The program's version; tests/install.sh compares it with those of the library and its bindings.
#[derive(Clone, Copy, PartialEq, Eq, Debug)]
pub struct Version;

impl Display for Version {
    fn fmt<W: fmt::Write>(&self, f: &mut fmt::Formatter<W>) -> fmt::Result {
        f.write_str("sindhopul 0.2.0\n")
    }
}

fn text(command: Command) -> &'static str {
    // Kept: one arm a command; a table of the texts would have as many lines, and its order to be that of the commands.
    match command {
        Command::Start => START,
        Command::Session => SESSION,
        Command::Announce => ANNOUNCE,
        Command::Calendar => CALENDAR,
        Command::Check => CHECK,
        Command::Preview => PREVIEW,
        Command::Rows => ROWS,
        Command::Show => SHOW,
        Command::Picture => PICTURE,
        Command::Name => NAME,
        Command::Why => WHY,
        Command::Replay => REPLAY,
        Command::Audit => AUDIT,
        Command::Undo => UNDO,
        Command::File => FILE,
        Command::Series => SERIES,
    }
}

const OVERVIEW: &str = "sindhopul: the register of listed WIG20 options

  calendar LIST FILE                        make a session calendar from a list of days
  check CALENDAR                            check a session calendar
  start CALENDAR REGISTER DAY CLOSE         list all six live months in an empty register
  session CALENDAR REGISTER DAY CLOSE       move the register to the next session
  announce CALENDAR REGISTER MONTH PRICE    take in an announced strike for the next session
  preview CALENDAR REGISTER DAY CLOSE       what session would do; changes no file
  rows CALENDAR REGISTER [MONTH]            the rows of a month, or of all six
  show CALENDAR REGISTER                    the six ladders
  picture CALENDAR REGISTER FILE            the six ladders drawn, as SVG
  name NAME | MONTH call|put PRICE          read or write the name of a series
  why CALENDAR REGISTER NAME | MONTH PRICE  why a series is listed, or why it is not
  replay CALENDAR JOURNAL REGISTER          make a register again from its journal
  audit CALENDAR JOURNAL REGISTER           whether a register is exactly what its journal gives
  undo CALENDAR REGISTER JOURNAL            take the last accepted call back
  file CALENDAR REGISTER FILE               write the file of the day's new series, for the loader
  series FILE                               what a file of series says

Options stand anywhere. start, session and announce keep the call in a journal with --journal FILE;
start and session write the file of the day's new series with --file FILE and take a doubtful close with --yes;
replay replaces a register that runs with --force.
A dash in place of a list, a journal or a file of series that is only read is standard input, in place of a picture
standard output.
Days are written 2026-11-16, months 2026-12, or as their numbers; closes 2413.37, or in hundredths.
Exit status: 0 done, 1 refused by a cause, 2 bad use or trouble with a file.
sindhopul help COMMAND says more of a command, sindhopul --version which version this is.
";

const START: &str = "
Lists the six live months of DAY, a session day, around CLOSE, the close before it.
  CALENDAR   the session calendar, made by sindhopul calendar
  REGISTER   empty, or missing: then it is made
  --journal  FILE gets a line for the call and its answer, which replay and audit read; start makes it where it is missing
  --file     FILE gets the series that are listed, as sindhopul file writes them; it is replaced together with REGISTER
  --yes      takes a close without a point, as 241337
";

const SESSION: &str = "
Moves the register to DAY, the next session day, with CLOSE, the close before it: drops the month that expired,
widens each ladder to take in what the close requires and what was announced, and says what was added and removed.
  REGISTER   replaced whole, never half written; while a run is at work, REGISTER.new is there
  --journal  FILE gets a line for the call and its answer, refused or not, which replay and audit read
  --file     FILE gets the series that are new on DAY, as sindhopul file writes them; it is replaced together with REGISTER
  --yes      takes a close outside the ladder of the nearest month, or one without a point, as 241337
sindhopul preview answers the same and changes no file; sindhopul undo takes the call back.
";

const ANNOUNCE: &str = "
Takes in a strike that the exchange announced for MONTH; the next session lists it, and every strike up to it.
  REGISTER   replaced whole, never half written; while a run is at work, REGISTER.new is there
  --journal  FILE gets a line for the call and its answer, refused or not, which replay and audit read
";

const CALENDAR: &str = "
Makes a session calendar, 4,566 bytes: every weekday from 2000-01-01 to 2099-12-31 has a session but those of the list.
  LIST   one date a line: 2026-12-25 has no session; +2026-01-10 is an extra session on a Saturday or Sunday;
         # starts a comment; - is standard input
  FILE   replaced whole
The first line that cannot be taken is told, and nothing is written.
";

const CHECK: &str = "
Says whether the calendar is accepted: 4,566 bytes, no bit set after 2099-12-31, and in every month a session from
its first day to its third Friday.
";

const PREVIEW: &str = "
What session would answer, with every row that it would add and what brings it in. No file is changed.
";

const ROWS: &str = "
Each listed strike of MONTH, or of all six live months: price, first day, names of call and put, origin.
";

const SHOW: &str = "
The six ladders: month, tier, expiry, span, rows, rows that are new today; and the announcements that wait.
";

const PICTURE: &str = "
Draws the six ladders into FILE as SVG: strikes against months, coloured by origin, today's rows marked.
  FILE   replaced whole; - is standard output
";

const NAME: &str = "
Reads the name of a series, as OW20L262400, or writes it.
";

const WHY: &str = "
Since when the series is listed and what brought it in; or why it is not listed, and which close or announcement
would bring it in.
";

const REPLAY: &str = "
Runs the calls of the journal from an empty register and writes REGISTER, replaced whole. Where a call answers
another number than the journal tells, says which, and writes nothing.
  JOURNAL   - is standard input
  --force   replaces a register that runs, or moves it back in time
";

const AUDIT: &str = "
Says whether the register is exactly what the calls of the journal give, and if not the first thing that differs.
Exit status 1 where they differ.
  JOURNAL   - is standard input
";

const UNDO: &str = "
Takes the last accepted call back: the register is made again from the calls before it. The line of the call stays in
the journal as a comment.
  REGISTER   replaced whole, never half written; while a run is at work, REGISTER.new is there
";

const FILE: &str = "
Writes the series that are new on the register's day, a call and a put for each new row, for the loader: the day, then
names and origins, names ascending. A day without new series gives a file with the day alone.
  FILE   replaced whole, never half written; while a run is at work, FILE.new is there
start and session write it in one run with the register, with --file FILE.
";

const SERIES: &str = "
The day of a file of series and how many it has, then for each its name, month, type, strike and origin. Bytes that are
no such file are refused, with the first place that is wrong, what stands there and what belongs there.
  FILE   up to 18,252,005 bytes, which name every series; - is standard input
";
