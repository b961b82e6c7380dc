// A line for each call in the journal that --journal names.
use crate::{Journal, Standing};
use calls::Call;
use commands::Opt;
use files::{Extent, Trouble};
use journal::Entry;
use matching::Way;
use reading::Register;
use system::{PATH_MAX, System};
use text::Text;

// How a journal is for a call that is to be kept in it.
#[derive(Clone, Copy)]
pub enum Kept {
    // No line is kept: no journal is asked for, or the call is refused for its files.
    Unasked,
    // The line goes there.
    Behind(Place),
    // The call is there already, from a run that was cut off before it wrote the register.
    Already,
}

// Where a line goes: behind the whole lines of a journal, or behind a line feed that the last one lacks.
#[derive(Clone, Copy)]
pub struct Place {
    read: Extent,
    lacks_feed: bool,
}

// Room for a line, and for the line feed before it.
const LINE: usize = 128;

// A journal as it was read. Its text has a line feed more than the file where that was lacking.
#[derive(Drop)]
struct Loaded<'a> {
    name: Text<PATH_MAX>,
    text: &'a [u8],
    size: usize,
}

impl Loaded<'_> {
    // Where a line goes that is put behind it.
    fn place(self) -> Place {
        let Loaded { text, size, .. } = self;
        let lacks_feed = size < text.len();
        let whole = if lacks_feed {
            size
        } else {
            journal::whole(text).len()
        };
        Place {
            read: Extent { whole, size },
            lacks_feed,
        }
    }

    // How it is for a call with its answer, if it belongs to the register.
    fn judge(self, system: &System, register: Register<'_>, entry: Entry) -> Result<Kept, Trouble> {
        let named = Journal {
            system,
            path: self.name.as_bytes(),
        };
        let begins = matches!(entry.call, Call::Start(_, _));
        match named.judge(self.text, register, begins)? {
            Standing::InStep(_) => Ok(Kept::Behind(self.place())),
            // by this call, or by another that is to be completed first
            Standing::Ahead(last) => {
                if entry.answer.is_err() || last.call != entry.call {
                    return Err(named.complain_way(Way::Ahead(last)));
                }
                files::note(
                    system,
                    named.path,
                    "has this call already, from a run that was cut off before it wrote the register",
                );
                Ok(Kept::Already)
            }
        }
    }
}

// Looks whether the journal that is asked for belongs to the register, and where the line of a call with its answer goes.
// `room` is for the journal's text.
pub fn look(
    system: &System,
    register: Register<'_>,
    entry: Entry,
    room: &mut [u8],
) -> Result<Kept, Trouble> {
    let Some(name) = commands::value(system, Opt::Journal) else {
        return Ok(Kept::Unasked);
    };
    // Kept: the length alone goes on: `ended` may put a line feed behind the text, into the room.
    let size = files::load(system, name.as_bytes(), room)?.map(|text| text.len());
    match size {
        Some(size) => {
            if room.len().saturating_sub(LINE) < size {
                return Err(files::complain(
                    system,
                    name.as_bytes(),
                    "it is full: a journal has 4,194,304 bytes at most",
                ));
            }
            let text = journal::ended(room, size);
            Loaded { name, text, size }.judge(system, register, entry)
        }
        // only a start may do without its journal: it makes one
        None => {
            if !matches!(entry.call, Call::Start(_, _)) {
                return Err(files::complain(
                    system,
                    name.as_bytes(),
                    "there is no such journal: look at the name\n  \
                    only start makes one; a lost one comes from a backup, or its calls are written by hand, one a line",
                ));
            }
            let journal = Loaded {
                name,
                text: b"",
                size: 0,
            };
            journal.judge(system, register, entry)
        }
    }
}

impl Kept {
    // Keeps a call where `look` found its place.
    pub fn record(self, system: &System, entry: Entry) -> Result<(), Trouble> {
        let Kept::Behind(place) = self else {
            return Ok(());
        };
        // `look` found the name; without one, keeping the line is the trouble.
        let journal = commands::value(system, Opt::Journal).unwrap_or_else(Text::new);
        let mut line = Text::<LINE>::new();
        if place.lacks_feed {
            line.put(b"\n");
        }
        line.say(entry);
        files::keep_line(system, journal.as_bytes(), place.read, line.as_bytes())
    }
}
