// Files by name.
use crate::{Error, PATH_MAX, System};
use std::fs::{File, Metadata, OpenOptions};
use std::io::{Seek, SeekFrom};
use std::os::fd::{AsRawFd, IntoRawFd};
use std::os::unix::fs::{PermissionsExt, fchown};
use std::{fs, str};
use text::Text;

// The last of the standard streams.
const LAST_STREAM: i32 = 2;

// A path as text. Where it is none, or longer than one can be, the error says so.
fn text_of(path: &[u8]) -> Result<&str, Error> {
    if PATH_MAX <= path.len() {
        return Err(Error::ENAMETOOLONG);
    }
    str::from_utf8(path).map_err(|_| Error::EILSEQ)
}

impl System {
    fn open(&self, how: &OpenOptions, path: &[u8]) -> Result<File, Error> {
        Ok(how.open(&self.rt, text_of(path)?)?)
    }

    // Kept: this, unlink and metadata are one call of std each; one function for the three would be handed that call by each.
    pub fn open_read(&self, path: &[u8]) -> Result<File, Error> {
        Ok(fs::open(&self.rt, text_of(path)?)?)
    }

    // For reading and writing; its bytes stay as they are.
    // Kept: this and create hand `open` what they differ in; one for both would make each caller do so.
    pub fn open_update(&self, path: &[u8]) -> Result<File, Error> {
        self.open(OpenOptions::new().read(true).write(true), path)
    }

    // Makes a file, for writing. It fails where the name is taken.
    // Kept: as open_update.
    pub fn create(&self, path: &[u8]) -> Result<File, Error> {
        self.open(OpenOptions::new().write(true).create_new(true), path)
    }

    pub fn rename(&self, from: &[u8], to: &[u8]) -> Result<(), Error> {
        Ok(fs::rename(&self.rt, text_of(from)?, text_of(to)?)?)
    }

    // Kept: as open_read.
    pub fn unlink(&self, path: &[u8]) -> Result<(), Error> {
        Ok(fs::remove_file(&self.rt, text_of(path)?)?)
    }

    // Gives an open file an owner and a group; the one that is left out stays.
    pub fn chown(&self, file: &File, owner: Option<u32>, group: Option<u32>) -> Result<(), Error> {
        Ok(fchown(file, owner, group)?)
    }

    pub fn chmod(&self, file: &File, mode: u32) -> Result<(), Error> {
        Ok(file.set_permissions(fs::Permissions::from_mode(mode))?)
    }

    // Brings an open file, or the entries of an open folder, to the disk.
    pub fn sync(&self, file: &File) -> Result<(), Error> {
        Ok(file.sync_all()?)
    }

    pub fn truncate(&self, file: &File, size: u64) -> Result<(), Error> {
        Ok(file.set_len(size)?)
    }

    // How long an open file is; the next byte that is written goes there.
    pub fn end(&self, file: &File) -> Result<u64, Error> {
        let mut at = file;
        Ok(at.seek(SeekFrom::End(0))?)
    }

    // What is known of a file by its name, links followed.
    // Kept: as open_read.
    pub fn metadata(&self, path: &[u8]) -> Result<Metadata, Error> {
        Ok(fs::metadata(&self.rt, text_of(path)?)?)
    }

    // Where a link leads.
    pub fn link_target(&self, path: &[u8]) -> Result<Text<PATH_MAX>, Error> {
        let link = fs::read_link(&self.rt, text_of(path)?)?;
        let mut target = Text::new();
        target.put(link.as_str().as_bytes());
        Ok(target)
    }

    // Takes a number below 3 where one is free, and keeps it.
    pub fn hold_stream(&self) {
        if let Ok(file) = self.open_read(b"/dev/null")
            && file.as_raw_fd() <= LAST_STREAM
        {
            let _ = file.into_raw_fd();
        }
    }
}
