// A journal written anew, with the calls from a place on as comments.
use files::{NewFile, Saved, Target, Trouble};
use lines::{Numbered, Words};
use system::{Error, System};

// `from` is whole lines.
fn write(system: &System, file: &NewFile<'_>, before: &[u8], from: &[u8]) -> Result<(), Error> {
    file.dress(system)?;
    file.write(system, before)?;
    for (_, line) in Numbered::of(from) {
        let has_call = Words::of(lines::content(line)).next().is_some();
        if has_call {
            file.write(system, b"# taken back: ")?;
        }
        file.write(system, line)?;
        file.write(system, b"\n")?;
    }
    Ok(())
}

// Makes the new journal beside the old one and brings it to the disk. Where that fails it is taken away.
pub fn make<'t>(
    system: &System,
    journal: &'t Target,
    before: &[u8],
    from: &[u8],
) -> Result<Saved<'t>, Trouble> {
    let file = journal.lock(system, None)?;
    match write(system, &file, before, from) {
        Ok(()) => file.finish(system),
        Err(error) => Err(file.give_up(system, error)),
    }
}
