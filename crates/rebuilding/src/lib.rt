// The register that a journal gives, by the proved replay.
#![tactic(auto)]

use calls::Call;
use files::Trouble;
use space::MOST_CALLS;
use system::System;

// Runs the whole lines of a journal from an empty register, by the call whose contract is the closing property.
pub fn rebuild(
    system: &System,
    path: &[u8],
    text: &[u8],
    calendar: &[u8],
    register: &mut [u8],
) -> Result<(), Trouble> {
    let mut calls = space::filled::<Call, MOST_CALLS>(Call::Start(0, 0));
    let mut numbers = space::filled::<u16, MOST_CALLS>(0);
    let n = journal::read(text, &mut calls).map_err(|refused| files::complain(
        system, path, refused,
    ))?;
    replaying::replay_calls(calendar, &calls[..n], register, &mut numbers[..n]).map_err(
        |not_run| files::complain(system, path, format_args!("it was not run: {not_run}")),
    )
}
