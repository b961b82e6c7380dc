// Journals: a line more, behind whole lines.
ghost use Rattle.std.specs.Prelude.{◌≡◌, Some, IfOk};

use crate::paths::{destination, follow};
use crate::replacing::{discard, sync_folder};
use crate::{Trouble, complain, fail, fail_after, note};
use system::{Error, File, System};

// How long a journal was when it was read, and how much of it is whole lines.
#[derive(Clone, Copy)]
pub struct Extent {
    pub whole: usize,
    pub size: usize,
}

impl Extent {
    // Whether its last line was cut off.
    fn is_cut(self) -> bool {
        self.whole != self.size
    }
}

// That a file still has as many bytes as were read of it: what another run wrote meanwhile would be lost.
pub fn check_size(
    system: &System,
    path: &[u8],
    found: Option<usize>,
    read: usize,
) -> Result<(), Trouble>
    ensures { IfOk result (λ _. found ≡ Some read) }
{
    match found {
        Some(size) if size == read => Ok(()),
        _ => Err(complain(
            system,
            path,
            "it was changed meanwhile: run the command again",
        )),
    }
}

// The journal, open to be written.
#[derive(Drop)]
struct Journal<'a> {
    system: &'a System,
    path: &'a [u8],
    file: File,
}

fn open(system: &System, path: &[u8]) -> Result<File, Trouble> {
    system
        .open_update(path)
        .map_err(|error| fail(system, path, error))
}

// The file is closed before it is opened to be written.
fn make(system: &System, path: &[u8]) -> Result<File, Trouble> {
    system
        .create(path)
        .map_err(|error| fail(system, path, error))?;
    if let Err(error) = sync_folder(system, path) {
        fail_after(
            system,
            path,
            "it was made, but its folder could not be brought to the disk",
            error,
        );
    }
    let file = open(system, path);
    if file.is_err() {
        discard(system, path);
    }
    file
}

impl<'a> Journal<'a> {
    // Makes the journal where it is missing.
    fn open(system: &'a System, path: &'a [u8]) -> Result<Journal<'a>, Trouble> {
        let file = match destination(system, path)? {
            Some(_) => open(system, path)?,
            None => make(system, path)?,
        };
        Ok(Journal { system, path, file })
    }

    fn fail(&self, error: Error) -> Trouble {
        fail(self.system, self.path, error)
    }

    fn fail_after(&self, what: &str, error: Error) -> Trouble {
        fail_after(self.system, self.path, what, error)
    }

    // That it has so many bytes.
    fn check_size(&self, size: usize) -> Result<(), Trouble> {
        let end = self
            .system
            .end(&self.file)
            .map_err(|error| self.fail(error))?;
        check_size(self.system, self.path, usize::try_from(end).ok(), size)
    }

    // Ends it behind its whole lines where a line was cut off.
    fn cut(&self, read: Extent) -> Result<(), Trouble> {
        if !read.is_cut() {
            return Ok(());
        }
        // Kept: u64 has no From of a usize, and try_from would need an answer for what does not happen.
        let whole = read.whole as u64;
        self.system
            .truncate(&self.file, whole)
            .map_err(|error| self.fail(error))?;
        note(
            self.system,
            self.path,
            "its last line was cut off; it is taken away, since its call was never carried out",
        );
        Ok(())
    }

    // Tells that a line could not be kept and was taken away again, and why.
    fn tell_unkept(&self, is_cut: bool, error: Error) -> Trouble {
        if is_cut {
            self.fail_after("the register is as it was, the call was not kept", error)
        } else {
            self.fail(error)
        }
    }

    fn write(&self, line: &[u8]) -> Result<(), Error> {
        self.system.write(&self.file, line)?;
        self.system.sync(&self.file)
    }

    // Puts a line behind all that it has and brings it to the disk. Where that fails the line, or what there is of it, is taken
    // away.
    fn append(&self, line: &[u8], is_cut: bool) -> Result<(), Trouble> {
        let end = self
            .system
            .end(&self.file)
            .map_err(|error| self.tell_unkept(is_cut, error))?;
        let Err(error) = self.write(line) else {
            return Ok(());
        };
        Err(match self.system.truncate(&self.file, end) {
            Ok(()) => self.tell_unkept(is_cut, error),
            Err(error) => self.fail_after("a line that was begun could not be taken away", error),
        })
    }
}

// Puts a line behind the whole lines of a journal that was read, and brings it to the disk. A journal that is missing is made;
// links are followed.
pub fn keep_line(system: &System, path: &[u8], read: Extent, line: &[u8]) -> Result<(), Trouble> {
    let real = follow(system, path)?;
    let journal = Journal::open(system, real.as_bytes())?;
    journal.check_size(read.size)?;
    journal.cut(read)?;
    journal.append(line, read.is_cut())
}
