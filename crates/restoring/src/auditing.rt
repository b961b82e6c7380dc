// A register held against what its journal gives.
use crate::Restored;
use audit::Difference;
use files::Trouble;
use keeping::Journal;
use layout::REGISTER_LENGTH;
use matching::{Last, Names, Way};
use reading::Register;
use system::Stream;
use terminal::Status;
use text::Text;

// What lies between the two, and the way on.
fn way_between<'a>(
    text: &'a [u8],
    last: Option<Last<'a>>,
    given: Register<'a>,
    register: Register<'a>,
) -> Way<'a> {
    if let Some(last) = keeping::unmade(text, register, last) {
        return Way::Ahead(last);
    }
    let mut again = space::zeros::<REGISTER_LENGTH>();
    let sought = matching::run(text, given.calendar, &mut again, Some(register.bytes));
    let is_passed = sought.is_ok_and(|found| found.passed);
    match Way::between(given, register, is_passed) {
        Way::Other if register.refusal().is_err() => Way::OtherDamaged,
        Way::Other => Way::OtherSound,
        way => way,
    }
}

// Holds the register of word 4 against the one that is given.
pub fn audit(restored: Restored<'_>) -> Result<Status, Trouble> {
    let Restored {
        journal: Journal { system, path },
        text,
        last,
        register: given,
    } = restored;
    let mut register = space::zeros::<REGISTER_LENGTH>();
    terminal::file(system, 4, &mut register)?;
    if register.as_slice() == given.bytes {
        return terminal::say(
            system,
            Stream::Output,
            "the register is exactly what its journal gives\n",
            Status::Done,
        );
    }
    let register = Register {
        calendar: given.calendar,
        bytes: &register,
    };
    let calendar_name = commands::word(system, 2);
    let register_name = commands::word(system, 4);
    let names = Names {
        calendar: calendar_name.as_bytes(),
        register: register_name.as_bytes(),
        // one that was read from a standard stream has no name here
        journal: if commands::is_stream(path) {
            b"JOURNAL"
        } else {
            path
        },
    };
    let mut out = Text::<65536>::new();
    out.put(b"the register is not what its journal gives\n  ");
    out.say(Difference { given, register });
    out.put(b"the journal: ");
    way_between(text, last, given, register).put(&mut out, names, None);
    out.put(b"\n");
    terminal::say_bytes(system, Stream::Error, out.as_bytes(), Status::Refused)
}
