// The C interface: exports alone, each a total function over plain slices and numbers. include/sindhopul.h declares them.
// Kept: the exports are alike by nature. C links each by its name, and each hands on one call, its Result made a struct or a number.
#![tactic(auto)]

ghost use Rattle.std.specs.Prelude.{◌≡◌};
ghost use Rattle.calendar.specs.Calendar.{check_of};
ghost use Rattle.names.specs.Names.{write_cause, written, read_of};
ghost use Rattle.rules.specs.Rulebook.{rules};
ghost use Rattle.calls.specs.declared.Call.TheVariants.{Start, Session, Announce};
ghost use Rattle.calls.specs.RowsCall.{rows_place};
ghost use Rattle.calls.specs.Answers.{after_at, listed_at, announced_at};
ghost use Rattle.fields.specs.Reading.{read_at, read_after};
ghost use Rattle.loader.specs.Loader.{file_at, file_after};

use calendar::Checked;
use calls::{Listed, Place, Told};
use fields::Contents;
use loader::Written;
use names::Series;

#[unsafe(no_mangle)]
pub extern "C" fn sindhopul_calendar_check(calendar: &[u8]) -> Checked
    ensures { result ≡ check_of calendar.now }
{
    passing::check(calendar).into()
}

#[unsafe(no_mangle)]
pub extern "C" fn sindhopul_start(
    calendar: &[u8],
    register: &mut [u8],
    day: u32,
    close: u32,
) -> Listed
    ensures value { result ≡ listed_at calendar.now (Start day close) register.old }
    ensures register_after { register.new ≡ after_at (rules calendar.now) (Start day close) register.old }
{
    listing::start(calendar, register, day, close).into()
}

#[unsafe(no_mangle)]
pub extern "C" fn sindhopul_session(
    calendar: &[u8],
    register: &mut [u8],
    day: u32,
    close: u32,
) -> Listed
    ensures value { result ≡ listed_at calendar.now (Session day close) register.old }
    ensures register_after { register.new ≡ after_at (rules calendar.now) (Session day close) register.old }
{
    listing::session(calendar, register, day, close).into()
}

#[unsafe(no_mangle)]
pub extern "C" fn sindhopul_announce(
    calendar: &[u8],
    register: &mut [u8],
    month: u32,
    price: u32,
) -> Told
    ensures value { result ≡ announced_at calendar.now (Announce month price) register.old }
    ensures register_after { register.new ≡ after_at (rules calendar.now) (Announce month price) register.old }
{
    announcing::announce(calendar, register, month, price).into()
}

#[unsafe(no_mangle)]
pub extern "C" fn sindhopul_rows(calendar: &[u8], register: &[u8], month: u32) -> Place
    ensures { result ≡ rows_place (rules calendar.now) register.now month }
{
    rows::rows_place(calendar, register, month).into()
}

#[unsafe(no_mangle)]
pub extern "C" fn sindhopul_name_write(name: &mut [u8], month: u32, kind: u32, price: u32) -> u16
    ensures value { result ≡ write_cause name.old month kind price }
    ensures name_after { name.new ≡ written name.old month kind price }
{
    // Kept: the match says what C gets in either case; `.err().map_or(0, |cause| cause.number())` hides that 0 is success.
    match names::write(name, month, kind, price) {
        Ok(()) => 0,
        Err(cause) => cause.number(),
    }
}

#[unsafe(no_mangle)]
pub extern "C" fn sindhopul_name_read(name: &[u8]) -> Series
    ensures { result ≡ read_of name.now }
{
    names::read(name).into()
}

#[unsafe(no_mangle)]
pub extern "C" fn sindhopul_file_write(calendar: &[u8], register: &[u8], file: &mut [u8]) -> Written
    ensures value { result ≡ file_at calendar.now register.now file.old }
    ensures file_after { file.new ≡ file_after (rules calendar.now) register.now file.old }
{
    loader::write(calendar, register, file).into()
}

#[unsafe(no_mangle)]
pub extern "C" fn sindhopul_file_read(file: &[u8], series: &mut [u8]) -> Contents
    ensures value { result ≡ read_at file.now series.old }
    ensures series_after { series.new ≡ read_after file.now series.old }
{
    parsing::read(file, series).into()
}
