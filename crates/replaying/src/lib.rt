// Calls run from an empty register: the way back to a register that was lost. They come as calls, or as a journal in plain numbers.
#![tactic(auto)]

ghost use Rattle.std.specs.Prelude.{◌≡◌, true, length};
ghost use Rattle.base.specs.Numbers.{number_in};
ghost use Rattle.rules.specs.Rulebook.{rules};
ghost use Rattle.history.specs.Claim.{final_at, numbers_at};
ghost use Rattle.replaying.specs.Replay.{is_empty, Left as CallsLeft};
ghost use Rattle.replaying.specs.Journal.{journal, all_calls, well_kept, Left};

use base::Cause;
use calls::{Answer, Call};
use std::fmt;
use std::fmt::Display;

// Why calls were not run.
// Kept: the errors have names; a `bool` or an `Option` would have to tell them by its values.
#[derive(Clone, Copy, PartialEq, Eq, Debug)]
pub enum NotRun {
    // The register was not 11,264 zero bytes.
    NotEmpty,
    // There are more or fewer places for numbers than calls.
    Lengths,
    // The lists of a journal do not fit each other, or a kind with its pairs is no call.
    Malformed,
}

impl Display for NotRun {
    fn fmt<W: fmt::Write>(&self, f: &mut fmt::Formatter<W>) -> fmt::Result {
        f.write_str(match self {
            NotRun::NotEmpty => "the register to begin with is not empty",
            NotRun::Lengths => "there are more or fewer places for numbers than calls",
            NotRun::Malformed =>
                "the lists do not fit each other, or a kind with its pairs is no call",
        })
    }
}

#[tactic(auto, unfolding(crate::specs::Replay::is_empty))]
fn is_empty(register: &[u8]) -> bool
    ensures { result ≡ is_empty register.now }
{
    register.len() == layout::REGISTER_LENGTH && layout::is_zero(register)
}

// Makes the calls one after the other and keeps their numbers.
// Kept: `numbers` beside `calls`, and numbers for causes: a journal keeps them, and with no heap the caller has the room for them.
fn run_calls(calendar: &[u8], calls: &[Call], register: &mut [u8], numbers: &mut [u16])
    requires { length numbers.old ≡ length calls.now }
    ensures register_after { register.new ≡ final_at (rules calendar.now) calls.now register.old }
    ensures numbers_after { numbers.new ≡ numbers_at (rules calendar.now) calls.now register.old }
{
    for (i, call) in calls.iter().enumerate() {
        // Kept: the match says what is kept in either case; `.err().map_or(0, |cause| cause.number())` hides that 0 is success.
        numbers[i] = match calling::make(calendar, register, *call) {
            Ok(_) => 0,
            Err(cause) => cause.number(),
        };
    }
}

// Runs calls from an empty register and keeps each call's number. Whatever is refused here is refused before anything is written.
// An entry point: it takes any slices.
pub fn replay_calls(
    calendar: &[u8],
    calls: &[Call],
    register: &mut [u8],
    numbers: &mut [u16],
) -> Result<(), NotRun>
    ensures { CallsLeft calendar.now calls.now register.old numbers.old register.new numbers.new result }
{
    if !is_empty(register) {
        return Err(NotRun::NotEmpty);
    }
    if numbers.len() != calls.len() {
        return Err(NotRun::Lengths);
    }
    run_calls(calendar, calls, register, numbers);
    Ok(())
}

// Whether each kind with its pairs is a call, and no pair is left over.
// Kept: a journal in plain numbers is three lists: kinds, how many pairs each call has, and all pairs; `Call`s are for those who have them.
#[tactic(auto, using(crate::proofs::JournalLaws::fit_end))]
fn all_calls(kinds: &[u8], counts: &[u8], pool: &[[u32; 2]]) -> bool
    requires { length counts.now ≡ length kinds.now }
    ensures { result ≡ all_calls kinds.now counts.now pool.now }
{
    let mut rest = pool;
    for (i, kind) in kinds.iter().enumerate() {
        let Some((pairs, behind)) = rest.split_at_checked(usize::from(counts[i])) else {
            return false;
        };
        if !calling::is_call(*kind, pairs) {
            return false;
        }
        rest = behind;
    }
    rest.is_empty()
}

// Whether each call of a journal has its pairs and a place for its number.
// Kept: the three lists, see above.
#[tactic(auto, unfolding(crate::specs::Journal::well_kept))]
fn well_kept(kinds: &[u8], counts: &[u8], pool: &[[u32; 2]], numbers: &[u16]) -> bool
    ensures { result ≡ well_kept kinds.now counts.now pool.now numbers.now }
{
    if counts.len() != kinds.len() || numbers.len() != kinds.len() {
        return false;
    }
    all_calls(kinds, counts, pool)
}

// The number that a call returned, as a journal keeps it.
fn number(made: Result<Answer, Cause>) -> u16
    ensures { result ≡ number_in made }
{
    match made {
        Ok(_) => 0,
        Err(cause) => cause.number(),
    }
}

// Makes the calls of a journal one after the other and keeps their numbers.
// Kept: the three lists, see above.
fn run(
    calendar: &[u8],
    kinds: &[u8],
    counts: &[u8],
    pool: &[[u32; 2]],
    register: &mut [u8],
    numbers: &mut [u16],
)
    requires { well_kept kinds.now counts.now pool.now numbers.old ≡ true }
    ensures register_after { register.new ≡ final_at (rules calendar.now) (journal kinds.now counts.now pool.now) register.old }
    ensures numbers_after { numbers.new ≡ numbers_at (rules calendar.now) (journal kinds.now counts.now pool.now) register.old }
{
    let mut rest = pool;
    for (i, kind) in kinds.iter().enumerate() {
        let (pairs, behind) = rest.split_at(usize::from(counts[i]));
        let Some(made) = calling::call_by_kind(calendar, register, *kind, pairs) else {
            return;
        };
        numbers[i] = number(made);
        rest = behind;
    }
}

// Runs a journal from an empty register and keeps each call's number: of each call its kind and how many pairs it has, and one pool of
// all pairs. Whatever is refused here is refused before anything is written. An entry point: it takes any slices.
// Kept: the three lists, see above.
pub fn replay(
    calendar: &[u8],
    kinds: &[u8],
    counts: &[u8],
    pool: &[[u32; 2]],
    register: &mut [u8],
    numbers: &mut [u16],
) -> Result<(), NotRun>
    ensures { Left calendar.now kinds.now counts.now pool.now register.old numbers.old register.new numbers.new result }
{
    if !is_empty(register) {
        return Err(NotRun::NotEmpty);
    }
    if !well_kept(kinds, counts, pool, numbers) {
        return Err(NotRun::Malformed);
    }
    run(calendar, kinds, counts, pool, register, numbers);
    Ok(())
}
