// Reading and writing open files and the standard streams.
ghost use Rattle.std.specs.Prelude.{◌≤◌, length, IfOk};

use crate::{Error, System};
use std::fs::File;
use std::io::{Read, Write};

#[derive(Clone, Copy)]
pub enum Stream {
    Output,
    Error,
}

#[derive(Clone, Copy)]
pub enum Source<'a> {
    // Standard input.
    Input,
    File(&'a File),
}

impl System {
    // Writes all of the bytes. Where that fails some of them may have been written.
    pub fn write_to(&self, to: Stream, bytes: &[u8]) -> Result<(), Error> {
        match to {
            Stream::Output => Print::write_all(&self.rt.stdout(), bytes)?,
            Stream::Error => Print::write_all(&self.rt.stderr(), bytes)?,
        }
        Ok(())
    }

    // Writes to standard error. Where that fails there is nowhere to tell it.
    pub fn tell(&self, bytes: &[u8]) {
        let _ = self.write_to(Stream::Error, bytes);
    }

    // The same into an open file.
    pub fn write(&self, file: &File, bytes: &[u8]) -> Result<(), Error> {
        let mut to = file;
        Ok(to.write_all(bytes)?)
    }

    // Puts what one read gives at the start of the buffer, and answers how many bytes.
    // Kept: the count, as std's read answers it: read_full goes on behind so many bytes, whose end is proved from `n ≤ length`.
    pub fn read_once(&self, from: Source<'_>, buffer: &mut [u8]) -> Result<usize, Error>
        ensures { IfOk result (λ n. n ≤ length buffer.new) }
    {
        match from {
            Source::Input => Ok(self.rt.stdin().read(buffer)?),
            Source::File(mut file) => Ok(file.read(buffer)?),
        }
    }

    // Reads until the buffer is full, the input ends or a read fails, and answers what was read.
    pub fn read_full<'a>(&self, from: Source<'_>, buffer: &'a mut [u8]) -> &'a [u8]
        ensures { length result.now ≤ length buffer.old }
    {
        let mut done = 0;
        // Kept: one read may give a few bytes or many, so no iterator goes over them.
        while done < buffer.len() {
            match self.read_once(from, &mut buffer[done..]) {
                Ok(n) if n > 0 => done += n,
                _ => break,
            }
        }
        &buffer[..done]
    }
}
