// Replacing a file whole. Each step takes what the one before it gave: the names, the new file open, the new file on the disk,
// the file that moved.
ghost use Rattle.files.specs.Names.{new_name};
ghost use Rattle.std.specs.Prelude.{◌≡◌, List, ℕ, IfOk};

use crate::paths::{beside, destination, folder, follow};
use crate::{Trouble, complain, fail, fail_after, note};
use attributes::{Age, age_of};
use std::fmt;
use std::fmt::Display;
use std::marker::Model;
use system::{Error, File, PATH_MAX, System};
use text::Text;

// Room for a path in quotes.
const ROOM: usize = 16384;

// The name of a file that is to be replaced, and that of the new one beside it.
#[derive(Drop)]
pub struct Target {
    path: Text<PATH_MAX>,
    beside: Text<PATH_MAX>,
}

// Clauses see the name of the file.
impl Model for Target {
    ghost Value = { List ℕ };

    ghost view = { λ t. t.path };

    ghost invariant = { λ t. t.beside ≡ new_name t.path };
}

// The new file, open to be written. No Drop: it is to be finished or released.
pub struct NewFile<'a> {
    target: &'a Target,
    file: File,
}

// The new file, closed and on the disk. No Drop: it is to be put in place or discarded.
pub struct Saved<'a> {
    target: &'a Target,
}

// A file whose new one is in its place; its folder is not yet on the disk. A Drop: where other trouble comes between it may stay so.
#[derive(Drop)]
pub struct Moved<'a> {
    path: &'a [u8],
}

// That a new file is there already, and since when.
#[derive(Clone, Copy)]
struct Taken(Age);

impl Display for Taken {
    fn fmt<W: fmt::Write>(&self, f: &mut fmt::Formatter<W>) -> fmt::Result {
        let age = self.0;
        write!(
            f,
            "is there already, for {age}: another run is at work, or one was cut off"
        )
    }
}

fn tell_word(system: &System, name: &[u8]) {
    let mut word = Text::<ROOM>::new();
    quoting::put_word(&mut word, name);
    system.tell(b" ");
    system.tell(word.as_bytes());
}

// Whether there is such a file, as far as the system can tell.
fn is_there(system: &System, path: &[u8]) -> bool {
    matches!(attributes::of(system, path), Ok(Some(_)))
}

// The new file is there already, and perhaps the other one of the same run: how they are taken away.
fn tell_taken(system: &System, beside: &[u8], other: Option<&[u8]>) -> Trouble {
    let trouble = complain(system, beside, Taken(age_of(system, beside)));
    let other = other.filter(|other| is_there(system, other));
    if let Some(other) = other {
        note(system, other, Taken(age_of(system, other)));
    }
    system.tell(b"  if no other run is at work, remove ");
    match other {
        Some(other) => {
            system.tell(b"both and run the command again: rm");
            tell_word(system, beside);
            tell_word(system, other);
        }
        None => {
            system.tell(b"it and run the command again: rm");
            tell_word(system, beside);
        }
    }
    system.tell(b"\n");
    trouble
}

impl Target {
    // Of a path that leads over no link.
    pub fn new(system: &System, path: Text<PATH_MAX>) -> Result<Target, Trouble>
        ensures { IfOk result (λ target. target ≡ path) }
    {
        let beside = beside(system, path.as_bytes())?;
        Ok(Target { path, beside })
    }

    pub fn path(&self) -> &[u8]
        ensures { result.now ≡ self.now }
    {
        self.path.as_bytes()
    }

    pub fn beside(&self) -> &[u8]
        ensures { result.now ≡ new_name self.now }
    {
        self.beside.as_bytes()
    }

    // Makes the new file. Where this run makes another one next, that one is told beside this one if both are there already.
    pub fn lock(&self, system: &System, next: Option<&Target>) -> Result<NewFile<'_>, Trouble> {
        destination(system, self.path())?;
        match system.create(self.beside()) {
            Ok(file) => Ok(NewFile { target: self, file }),
            Err(Error::EEXIST) => {
                Err(tell_taken(system, self.beside(), next.map(|next| next.beside())))
            }
            Err(error) => Err(fail(system, self.beside(), error)),
        }
    }
}

impl<'a> NewFile<'a> {
    // Closes it and takes it away again, and leaves the old file as it is.
    pub fn release(self, system: &System) {
        let NewFile { target, file } = self;
        drop(file);
        discard(system, target.beside());
    }

    // The same where writing it failed, which is told.
    pub fn give_up(self, system: &System, error: Error) -> Trouble {
        let trouble = fail(system, self.target.beside(), error);
        self.release(system);
        trouble
    }

    // Gives it owner, group and permissions of the old file, as far as the system allows: first its owner, whom the
    // permissions are for. Where it cannot be known what they are, that is told.
    pub fn dress(&self, system: &System) -> Result<(), Error> {
        let old = match attributes::of(system, self.target.path()) {
            Ok(Some(old)) => old,
            Ok(None) => return Ok(()),
            Err(error) => {
                fail(system, self.target.path(), error);
                return Err(error);
            }
        };
        if system
            .chown(&self.file, Some(old.owner), Some(old.group))
            .is_err()
        {
            let _ = system.chown(&self.file, None, Some(old.group));
        }
        let _ = system.chmod(&self.file, old.permissions());
        Ok(())
    }

    pub fn write(&self, system: &System, bytes: &[u8]) -> Result<(), Error> {
        system.write(&self.file, bytes)
    }

    // Brings it to the disk and closes it. Where it does not come to the disk it is taken away; std hands on nothing that
    // closing tells.
    pub fn finish(self, system: &System) -> Result<Saved<'a>, Trouble> {
        if let Err(error) = system.sync(&self.file) {
            return Err(self.give_up(system, error));
        }
        let NewFile { target, file } = self;
        drop(file);
        Ok(Saved { target })
    }

    // Writes it, in the dress of the old file, and brings it to the disk. Where that fails it is taken away.
    pub fn save(self, system: &System, bytes: &[u8]) -> Result<Saved<'a>, Trouble> {
        if self.dress(system).is_err() {
            self.release(system);
            return Err(Trouble);
        }
        if let Err(error) = self.write(system, bytes) {
            return Err(self.give_up(system, error));
        }
        self.finish(system)
    }
}

impl<'a> Saved<'a> {
    // Takes it away again and leaves the old file as it is.
    pub fn discard(self, system: &System) {
        let Saved { target } = self;
        discard(system, target.beside());
    }

    // Puts it in the place of the old file. Trouble is told behind what has moved before, and the new file is taken away.
    pub fn put_in_place(self, system: &System, moved: &str) -> Result<Moved<'a>, Trouble> {
        if let Err(error) = system.rename(self.target.beside(), self.target.path()) {
            system.tell(moved.as_bytes());
            let trouble = fail_after(
                system,
                self.target.path(),
                "it is as it was, run the command again: the new one could not take its place",
                error,
            );
            self.discard(system);
            return Err(trouble);
        }
        let Saved { target } = self;
        Ok(Moved {
            path: target.path(),
        })
    }

    // The same, and brings the folder to the disk.
    pub fn install(self, system: &System, moved: &str) -> Result<(), Trouble> {
        self.put_in_place(system, moved)?.settle(system)
    }
}

impl Moved<'_> {
    // Brings the folder of the file that did move to the disk.
    pub fn settle(self, system: &System) -> Result<(), Trouble> {
        let path = self.path;
        sync_folder(system, path).map_err(|error| {
            fail_after(
                system,
                path,
                "it did move, but its folder could not be brought to the disk",
                error,
            )
        })
    }
}

// Takes a file away.
pub fn discard(system: &System, path: &[u8]) {
    if let Err(error) = system.unlink(path) {
        fail_after(system, path, "it could not be taken away", error);
    }
}

// Brings the folder's entry of a file to the disk.
pub fn sync_folder(system: &System, path: &[u8]) -> Result<(), Error> {
    let folder = system.open_read(folder(path))?;
    system.sync(&folder)
}

// Replaces the file that a path leads to by these bytes.
pub fn replace(system: &System, path: &[u8], bytes: &[u8]) -> Result<(), Trouble> {
    let target = Target::new(system, follow(system, path)?)?;
    let new = target.lock(system, None)?;
    new.save(system, bytes)?.install(system, "")
}
