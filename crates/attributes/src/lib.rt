// What the system knows of a file by its name: its attributes, links followed, and where a link leads.
#![tactic(auto)]

mod age;

ghost use Rattle.attributes.specs.Paths.{Ended};
ghost use Rattle.std.specs.Prelude.{◌≡◌, ◌↔◌, IsTrue};

pub use age::{Age, age_of};
use std::os::unix::fs::MetadataExt;
use system::{Error, Metadata, PATH_MAX, System};
use text::Text;

const LAST: usize = PATH_MAX - 1;

// The bits of a mode that say what a file is, and what they say of a regular file and of a folder.
const FORMAT: u32 = 0o170000;

const REGULAR: u32 = 0o100000;

const FOLDER: u32 = 0o040000;

// The bits of a mode that say who may read, write and run the file.
const PERMISSIONS: u32 = 0o777;

const WRITING: u32 = 0o222;

#[derive(Clone, Copy)]
pub struct Attributes {
    mode: u32,
    pub owner: u32,
    pub group: u32,
    pub device: u64,
    pub inode: u64,
    pub size: u64,
    // In seconds since 1970 began.
    pub changed: i64,
}

impl From<Metadata> for Attributes {
    fn from(found: Metadata) -> Attributes {
        Attributes {
            mode: found.mode(),
            owner: found.uid(),
            group: found.gid(),
            device: found.dev(),
            inode: found.ino(),
            size: found.size(),
            changed: found.mtime(),
        }
    }
}

impl Attributes {
    pub fn is_regular(&self) -> bool {
        self.mode & FORMAT == REGULAR
    }

    pub fn is_folder(&self) -> bool {
        self.mode & FORMAT == FOLDER
    }

    // Nobody may write it, its owner neither.
    pub fn is_protected(&self) -> bool {
        self.mode & WRITING == 0
    }

    pub fn permissions(&self) -> u32 {
        self.mode & PERMISSIONS
    }

    // Whether both are those of one file.
    // Kept: a derived == would want a type of the two numbers, made from both sides for this one question.
    pub fn is_of_same_file(&self, other: &Attributes) -> bool
        ensures { IsTrue result ↔ (self.now.device ≡ other.now.device) × (self.now.inode ≡ other.now.inode) }
    {
        self.device == other.device && self.inode == other.inode
    }
}

// A path as C reads it. All of it where it passes the check.
fn ended(path: &[u8]) -> [u8; PATH_MAX]
    ensures { Ended result }
{
    // Kept: no length is kept beside it: the zero ends it, as C reads it.
    let mut name = [0; PATH_MAX];
    let n = path.len().min(PATH_MAX);
    name[..n].copy_from_slice(&path[..n]);
    name[LAST] = 0;
    name
}

// Whether C can be handed all of a path: as C reads it, it ends where the path does. Where it cannot, the error says why, by
// a call that comes to nothing.
fn check(system: &System, path: &[u8]) -> Result<(), Error> {
    let end = ended(path).iter().position(|&byte| byte == 0);
    if end != Some(path.len()) {
        system.open_read(path)?;
        return Err(Error::EINVAL);
    }
    Ok(())
}

// Those of a file; none where there is no such file. So trouble is never taken for a missing file.
pub fn of(system: &System, path: &[u8]) -> Result<Option<Attributes>, Error> {
    check(system, path)?;
    match system.metadata(path) {
        Ok(found) => Ok(Some(Attributes::from(found))),
        Err(Error::ENOENT) => Ok(None),
        Err(error) => Err(error),
    }
}

// Where a link leads; none where the name is no link, or nothing has that name.
pub fn link_of(system: &System, path: &[u8]) -> Result<Option<Text<PATH_MAX>>, Error> {
    check(system, path)?;
    match system.link_target(path) {
        Ok(target) => Ok(Some(target)),
        Err(Error::EINVAL | Error::ENOENT) => Ok(None),
        Err(error) => Err(error),
    }
}
