// Announce on the register's bytes.
#![tactic(auto)]

ghost use Rattle.std.specs.Prelude.{◌≡◌, true, ◌++◌, ◌≤◌, length, drop};
ghost use Rattle.base.specs.Numbers.{number_in};
ghost use Rattle.rules.specs.Rulebook.{rules};
ghost use Rattle.calls.specs.declared.Call.TheVariants.{Announce};
ghost use Rattle.layout.specs.Register.{running};
ghost use Rattle.layout.specs.Bytes.{body_of, bytes_of};
ghost use Rattle.register.specs.Opens.{Finds};
ghost use Rattle.calls.specs.Listing.{announce_body, number};
ghost use Rattle.calls.specs.Answers.{after_at, announced_at};
ghost use Rattle.calls.specs.Results.{told_of};
ghost use Rattle.announcing.specs.Placing.{place_bytes, Room};

use base::{Cause, put_word};
use layout::{MONTH, MOST_WAITING, PLACE_LENGTH, PLACES, PRICE, REGISTER_LENGTH, WAITING};
use register::{Opened, Running};

// Writes an announcement at the front of a part.
fn write_place(part: &mut [u8], month: u16, price: u16)
    requires { 4 ≤ length part.old }
    ensures { part.new ≡ place_bytes month price ++ drop 4 part.old }
{
    put_word(part, MONTH, month);
    put_word(part, PRICE, price);
}

// Puts an announcement into the next free place. Returns how many wait.
fn put_announcement(register: &mut [u8; REGISTER_LENGTH], month: u16, price: u16) -> u16
    requires { Room register.old }
    ensures value { result ≡ length (announce_body (body_of register.old) month price).waiting }
    ensures register_after { register.new ≡ bytes_of (running (announce_body (body_of register.old) month price)) }
{
    let waiting = register[WAITING];
    let at = PLACES + PLACE_LENGTH * usize::from(waiting);
    write_place(&mut register[at..], month, price);
    register[WAITING] = waiting + 1;
    u16::from(waiting) + 1
}

// An announcement's own causes, on a register that runs and is well formed.
fn announce_refusal(
    before: Running<'_>,
    register: &[u8; REGISTER_LENGTH],
    month: u32,
    price: u32,
) -> Result<(), Cause>
    requires { Finds before.calendar.bytes.now register.now before }
    ensures { number_in result ≡ number (rules before.entry.calendar.bytes.now) (Announce month price) (running (body_of register.now)) }
{
    let next = register::next_first(before.calendar, register);
    let waiting = usize::from(register[WAITING]);
    let waits = register::waits(layout::places(register, waiting), month, price);
    before.refusal(next, waits, month, price)?;
    if MOST_WAITING <= waiting {
        return Err(Cause::AnnounceFull);
    }
    Ok(())
}

// Month and price, to be introduced by the next session; answers how many wait. An entry point: it takes any bytes and any numbers.
// Kept: the casts of this file. The check proves that they lose nothing; try_from(..).unwrap() would need the same proof and says it in more words.
pub fn announce(calendar: &[u8], register: &mut [u8], month: u32, price: u32) -> Result<u16, Cause>
    ensures value { told_of result ≡ announced_at calendar.now (Announce month price) register.old }
    ensures register_after { register.new ≡ after_at (rules calendar.now) (Announce month price) register.old }
{
    let Opened::Running(before) = register::open(calendar, register)? else {
        return Err(Cause::Empty);
    };
    let register = register.as_mut_array().unwrap();
    announce_refusal(before, register, month, price)?;
    Ok(put_announcement(register, month as u16, price as u16))
}
