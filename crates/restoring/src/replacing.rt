// The register of a replay, put in place: never an empty one, and another one is replaced only where that is asked for.
use commands::Opt;
use files::{NewFile, Target, Trouble};
use keeping::Journal;
use layout::REGISTER_LENGTH;
use reading::Register;
use report::Glance;
use std::fmt;
use std::fmt::Display;
use system::{Stream, System};
use terminal::Status;
use text::Date;

// Its day, and how much it has.
#[derive(Clone, Copy)]
struct Size<'a>(Register<'a>);

impl Display for Size<'_> {
    fn fmt<W: fmt::Write>(&self, f: &mut fmt::Formatter<W>) -> fmt::Result {
        let day = Date(self.0.day());
        let rows = self.0.row_count();
        let waiting = self.0.waiting();
        write!(f, "{day}, {rows} rows, {waiting} waiting")
    }
}

// What a register is that would be replaced.
#[derive(Clone, Copy)]
struct Replaced<'a>(Register<'a>);

impl Display for Replaced<'_> {
    fn fmt<W: fmt::Write>(&self, f: &mut fmt::Formatter<W>) -> fmt::Result {
        if self.0.refusal().is_err() {
            return f.write_str("a register of another calendar, or a damaged one");
        }
        let size = Size(self.0);
        write!(f, "a register that stands at {size}")
    }
}

fn complain(system: &System, path: &[u8], old: Register<'_>, new: Register<'_>) -> Trouble {
    let old = Replaced(old);
    let new = Size(new);
    files::complain(
        system,
        path,
        format_args!(
            "it is {old}; the journal gives {new}\n  if that is to replace it, add --force"
        ),
    )
}

// Puts the new register in place and tells it, behind the one that it replaced.
fn put_in_place(
    system: &System,
    opened: NewFile<'_>,
    old: Register<'_>,
    new: Register<'_>,
) -> Result<Status, Trouble> {
    opened.save(system, new.bytes)?.install(system, "")?;
    let glance = Glance(new);
    if layout::is_zero(old.bytes) {
        return terminal::tell(system, glance, "the register");
    }
    let old = Replaced(old);
    terminal::tell(
        system,
        format_args!("replaced: {old}\n\n{glance}"),
        "the register",
    )
}

// Over the register that is there, locked by this run. One that is empty, as a missing one, has nothing to lose.
fn replace_old(
    system: &System,
    opened: NewFile<'_>,
    path: &[u8],
    old: Register<'_>,
    new: Register<'_>,
) -> Result<Status, Trouble> {
    if old.bytes == new.bytes {
        opened.release(system);
        let glance = Glance(new);
        return terminal::say(
            system,
            Stream::Output,
            format_args!("the register was already what its journal gives\n\n{glance}"),
            Status::Done,
        );
    }
    if layout::is_zero(old.bytes) || commands::has(system, Opt::Force) {
        return put_in_place(system, opened, old, new);
    }
    opened.release(system);
    Err(complain(system, path, old, new))
}

// Writes the register that a journal gives to the file of word 4.
pub fn replace(journal: Journal<'_>, new: Register<'_>) -> Result<Status, Trouble> {
    if layout::is_zero(new.bytes) {
        return Err(journal.complain("none of its calls is accepted: it gives an empty register"));
    }
    let system = journal.system;
    let target = Target::new(system, terminal::followed(system, 4)?)?;
    let opened = target.lock(system, None)?;
    let mut old = space::zeros::<REGISTER_LENGTH>();
    if let Err(trouble) = terminal::register_or_none(system, target.path(), &mut old) {
        opened.release(system);
        return Err(trouble);
    }
    let old = Register {
        calendar: new.calendar,
        bytes: &old,
    };
    replace_old(system, opened, target.path(), old, new)
}
