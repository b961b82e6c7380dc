// Names of files: the one that a path leads to, the one of the new file beside it, two names of one file; and what has a name.
ghost use Rattle.files.specs.Names.{new_name};
ghost use Rattle.std.specs.Prelude.{◌≡◌, ◌<◌, length, IfOk, OnOk};

use crate::{Trouble, complain, fail};
use attributes::Attributes;
use system::{PATH_MAX, System};
use text::Text;

// As many links in a row as the system follows.
const LINKS: usize = 40;

// What the name of a new file has behind that of the old one.
const NEW: &[u8] = b".new";

// That a name has a letter and was put whole.
fn check_name(system: &System, path: &[u8], name: &[u8]) -> Result<(), Trouble>
    ensures { OnOk result (length name.now < 4096) }
{
    if name.is_empty() {
        return Err(complain(system, b"a file", "its name is empty"));
    }
    if PATH_MAX <= name.len() {
        return Err(complain(system, path, "the name is too long"));
    }
    Ok(())
}

// The folder's part of a path, with the stroke behind it, and the name in the folder.
fn split(path: &[u8]) -> (&[u8], &[u8]) {
    match path.iter().rposition(|&byte| byte == b'/') {
        Some(at) => path.split_at(at + 1),
        None => (b"", path),
    }
}

// The folder of a path.
pub fn folder(path: &[u8]) -> &[u8] {
    let (folder, _) = split(path);
    if folder.is_empty() { b"." } else { folder }
}

// The link's target in the place of the link: one that begins with / whole, another in the link's folder.
fn lead_on(link: &[u8], target: &[u8]) -> Text<PATH_MAX> {
    let mut real = Text::new();
    if !target.starts_with(b"/") {
        let (folder, _) = split(link);
        real.put(folder);
    }
    real.put(target);
    real
}

// The name of the file that a path leads to, links followed; that file may be missing.
pub fn follow(system: &System, path: &[u8]) -> Result<Text<PATH_MAX>, Trouble> {
    let mut real = Text::new();
    real.put(path);
    for _ in 0..=LINKS {
        check_name(system, path, real.as_bytes())?;
        match attributes::link_of(system, real.as_bytes()) {
            Ok(Some(target)) => real = lead_on(real.as_bytes(), target.as_bytes()),
            Ok(None) => return Ok(real),
            Err(error) => return Err(fail(system, path, error)),
        }
    }
    Err(complain(system, path, "its links come to no end"))
}

// The name of the new file beside a path.
pub fn beside(system: &System, path: &[u8]) -> Result<Text<PATH_MAX>, Trouble>
    ensures { IfOk result (λ name. name ≡ new_name path.now) }
{
    let mut name = Text::new();
    name.put(path);
    name.put(NEW);
    check_name(system, path, name.as_bytes())?;
    Ok(name)
}

// The attributes of a file, none where there is no such file.
pub fn known(system: &System, path: &[u8]) -> Result<Option<Attributes>, Trouble> {
    attributes::of(system, path).map_err(|error| fail(system, path, error))
}

// The attributes of a file that may be written, none of one that is missing.
pub fn destination(system: &System, path: &[u8]) -> Result<Option<Attributes>, Trouble> {
    let Some(file) = known(system, path)? else {
        return Ok(None);
    };
    let why = if file.is_folder() {
        "is a folder: no destination"
    } else if !file.is_regular() {
        "is a device, pipe or socket: no destination"
    } else if file.is_protected() {
        "is write-protected: no destination"
    } else {
        return Ok(Some(file));
    };
    Err(complain(system, path, why))
}

// Whether two files that were looked for are one.
// Kept: no PartialEq, here and below: that asks no system, tells no trouble, and would take two files that are missing for one.
fn is_one(a: Option<Attributes>, b: Option<Attributes>) -> bool {
    match (a, b) {
        (Some(a), Some(b)) => a.is_of_same_file(&b),
        _ => false,
    }
}

fn folder_of(system: &System, path: &[u8]) -> Option<Attributes> {
    attributes::of(system, folder(path)).unwrap_or(None)
}

// Whether two names would be those of one file, if there were one.
// Kept: as is_one.
fn is_same_place(system: &System, a: &[u8], b: &[u8]) -> bool {
    let (_, name_a) = split(a);
    let (_, name_b) = split(b);
    name_a == name_b && is_one(folder_of(system, a), folder_of(system, b))
}

// The same of two names that no file has, links followed.
// Kept: as is_one.
fn is_same_missing(system: &System, a: &[u8], b: &[u8]) -> Result<bool, Trouble> {
    let real_a = follow(system, a);
    let real_b = follow(system, b);
    Ok(is_same_place(system, real_a?.as_bytes(), real_b?.as_bytes()))
}

fn is_known_same(system: &System, a: &[u8], b: &[u8]) -> Result<bool, Trouble> {
    let file_a = known(system, a)?;
    let file_b = known(system, b)?;
    if file_a.is_some() || file_b.is_some() {
        return Ok(is_one(file_a, file_b));
    }
    is_same_missing(system, a, b)
}

// Whether two names lead to one file, be it there or not. Those of which that cannot be known, which is told, count as one.
// Kept: as is_one.
pub fn is_same(system: &System, a: &[u8], b: &[u8]) -> bool {
    is_known_same(system, a, b).unwrap_or(true)
}
