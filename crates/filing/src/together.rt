// A register and the file of its new series, replaced together.
//
// Both new files are made before the register is read, and written before anything moves. The file moves first, the register at once
// behind it. A run that is cut off between the two leaves the old register: the same command is accepted again and completes the
// work.
use crate::making::series_of;
use commands::Opt;
use files::{NewFile, Saved, Target, Trouble};
use loader::MOST_LENGTH;
use reading::Register;
use system::System;

// The names of the register that word 3 leads to, and of the file that --file asks for.
#[derive(Drop)]
pub struct Targets {
    register: Target,
    file: Option<Target>,
}

// Their new files, open.
pub struct NewFiles<'a> {
    register: NewFile<'a>,
    file: Option<NewFile<'a>>,
}

// Their new files, on the disk.
pub struct SavedFiles<'a> {
    register: Saved<'a>,
    file: Option<SavedSeries<'a>>,
}

// A new file of series on the disk, and how many bytes it has.
struct SavedSeries<'a> {
    saved: Saved<'a>,
    length: usize,
}

impl Targets {
    pub fn named(system: &System) -> Result<Targets, Trouble> {
        let register = Target::new(system, terminal::followed(system, 3)?)?;
        let file = match commands::value(system, Opt::File) {
            Some(name) => Some(Target::new(system, files::follow(system, name.as_bytes())?)?),
            None => None,
        };
        Ok(Targets { register, file })
    }

    // The register's path.
    pub fn register(&self) -> &[u8] {
        self.register.path()
    }

    // Makes both new files, or neither.
    pub fn lock(&self, system: &System) -> Result<NewFiles<'_>, Trouble> {
        let register = self.register.lock(system, self.file.as_ref())?;
        let Some(target) = &self.file else {
            return Ok(NewFiles {
                register,
                file: None,
            });
        };
        match target.lock(system, None) {
            Ok(file) => Ok(NewFiles {
                register,
                file: Some(file),
            }),
            Err(trouble) => {
                register.release(system);
                Err(trouble)
            }
        }
    }
}

impl<'a> NewFiles<'a> {
    // Takes both away again.
    pub fn release(self, system: &System) {
        let NewFiles { register, file } = self;
        if let Some(file) = file {
            file.release(system);
        }
        register.release(system);
    }

    // Writes both, for a register as a call left it, and brings them to the disk. Where that fails both are taken away.
    pub fn save(self, system: &System, left: Register<'_>) -> Result<SavedFiles<'a>, Trouble> {
        let NewFiles { register, file } = self;
        match file {
            Some(file) => save_both(system, register, file, left),
            None => Ok(SavedFiles {
                register: register.save(system, left.bytes)?,
                file: None,
            }),
        }
    }
}

// Every register that a call left has a file of its new series.
fn save_both<'a>(
    system: &System,
    register: NewFile<'a>,
    file: NewFile<'a>,
    left: Register<'_>,
) -> Result<SavedFiles<'a>, Trouble> {
    let mut room = space::zeros::<MOST_LENGTH>();
    let Ok(series) = series_of(left, &mut room) else {
        file.release(system);
        register.release(system);
        return Err(files::complain(system, b"the file of series", "it could not be made"));
    };
    let register = match register.save(system, left.bytes) {
        Ok(saved) => saved,
        Err(trouble) => {
            file.release(system);
            return Err(trouble);
        }
    };
    match file.save(system, series) {
        Ok(saved) => Ok(SavedFiles {
            register,
            file: Some(SavedSeries {
                saved,
                length: series.len(),
            }),
        }),
        Err(trouble) => {
            register.discard(system);
            Err(trouble)
        }
    }
}

impl SavedFiles<'_> {
    // How many bytes the file of series has, if one is asked for.
    pub fn length(&self) -> Option<usize> {
        self.file.as_ref().map(|file| file.length)
    }

    // Takes both away again.
    pub fn discard(self, system: &System) {
        let SavedFiles { register, file } = self;
        if let Some(SavedSeries { saved, length: _ }) = file {
            saved.discard(system);
        }
        register.discard(system);
    }

    // Puts both in place.
    pub fn install(self, system: &System) -> Result<(), Trouble> {
        let SavedFiles { register, file } = self;
        match file {
            Some(SavedSeries { saved, length: _ }) => install_both(system, register, saved),
            None => register.install(system, ""),
        }
    }
}

// Both folders are brought to the disk, whatever became of the other.
fn install_both(system: &System, register: Saved<'_>, file: Saved<'_>) -> Result<(), Trouble> {
    let file = match file.put_in_place(system, "") {
        Ok(moved) => moved,
        Err(trouble) => {
            register.discard(system);
            return Err(trouble);
        }
    };
    let register = register.put_in_place(system, "the file of series did move; ")?;
    let file = file.settle(system);
    let register = register.settle(system);
    file.and(register)
}
