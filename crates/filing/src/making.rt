// The file of a register's new series, made.
use base::Cause;
use reading::Register;

pub fn series_of<'a>(register: Register<'_>, room: &'a mut [u8]) -> Result<&'a [u8], Cause> {
    let length = loader::write(register.calendar, register.bytes, room)?;
    let length = usize::try_from(length).unwrap_or(0);
    Ok(room.get(..length).unwrap_or(&[]))
}
