// Any of the calls that change a register, for journals and the console, and what a kind and pairs of numbers name of them.
#![tactic(auto)]

ghost use Rattle.std.specs.Prelude.{◌≡◌, IfSome, IfOk, option_map};
ghost use Rattle.rules.specs.Rulebook.{rules};
ghost use Rattle.calls.specs.Calls.{call_of, is_call};
ghost use Rattle.calls.specs.Answers.{after_at, answer_at, called_at, after_called};
ghost use Rattle.calls.specs.Results.{answered_of, Suits};

use base::Cause;
use calls::{Answer, Call, KINDS, SESSION, START};

// Makes a call. An entry point: it takes any bytes and any numbers.
#[tactic(auto, unfolding(calls::specs::Answers::answer_at))]
pub fn make(calendar: &[u8], register: &mut [u8], call: Call) -> Result<Answer, Cause>
    ensures value { answered_of result ≡ answer_at calendar.now call register.old }
    ensures suits { IfOk result (Suits call) }
    ensures register_after { register.new ≡ after_at (rules calendar.now) call register.old }
{
    match call {
        Call::Start(day, close) => listing::start(calendar, register, day, close).map(
            Answer::Listed,
        ),
        Call::Session(day, close) => listing::session(calendar, register, day, close).map(
            Answer::Listed,
        ),
        Call::Announce(month, price) => announcing::announce(calendar, register, month, price).map(
            Answer::Announced,
        ),
    }
}

// Whether a kind and pairs are those of a call: each kind has one pair.
// Kept: for callers with plain numbers, any kind and any pairs; who knows the call has a `Call`.
#[tactic(auto, using(crate::proofs::CallLaws::no_kind, crate::proofs::CallLaws::kind_fits))]
pub fn is_call(kind: u8, pairs: &[[u32; 2]]) -> bool
    ensures { result ≡ is_call (call_of kind pairs.now) }
{
    if KINDS <= kind {
        return false;
    }
    pairs.len() == 1
}

// The call that a kind and pairs name, if they are those of one.
// Kept: the numbers are plain here, see above.
pub fn call_of(kind: u8, pairs: &[[u32; 2]]) -> Option<Call>
    ensures { result ≡ call_of kind pairs.now }
{
    if !is_call(kind, pairs) {
        return None;
    }
    let [x, y] = pairs[0];
    Some(match kind {
        START => Call::Start(x, y),
        SESSION => Call::Session(x, y),
        _ => Call::Announce(x, y),
    })
}

// Makes the call that a kind and pairs name; what is no call answers nothing and changes nothing. An entry point: it takes any bytes
// and any numbers.
// Kept: the numbers are plain here, see above.
#[tactic(auto, unfolding(calls::specs::Answers::called_at, calls::specs::Answers::after_called))]
pub fn call_by_kind(
    calendar: &[u8],
    register: &mut [u8],
    kind: u8,
    pairs: &[[u32; 2]],
) -> Option<Result<Answer, Cause>>
    ensures value { option_map answered_of result ≡ called_at calendar.now (call_of kind pairs.now) register.old }
    ensures suits { IfSome (call_of kind pairs.now) (λ call. IfSome result (λ made. IfOk made (Suits call))) }
    ensures register_after { register.new ≡ after_called (rules calendar.now) (call_of kind pairs.now) register.old }
{
    let call = call_of(kind, pairs)?;
    Some(make(calendar, register, call))
}
