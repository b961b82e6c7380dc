// Every refusal in words: first the cause with its number, then its own values, then what to do next.
#![tactic(auto)]

mod faults;
mod opening;
mod parts;
mod series;
mod sessions;
mod strikes;

use base::Cause;
use calls::Call;
pub use faults::FileRefusal;
pub use opening::{CalendarRefusal, OpeningRefusal};
use parts::Refused;
pub use parts::{Bands, LiveMonths, Neighbours};
use reading::Register;
pub use series::NameRefusal;
use std::fmt;
use std::fmt::Display;
pub use strikes::RowsRefusal;

// A call's refusal, 11 to 25. The register is as it was before the call.
#[derive(Clone, Copy)]
pub struct CallRefusal<'a> {
    pub register: Register<'a>,
    pub cause: Cause,
    pub call: Call,
}

impl Display for CallRefusal<'_> {
    fn fmt<W: fmt::Write>(&self, f: &mut fmt::Formatter<W>) -> fmt::Result {
        let register = self.register;
        write!(f, "{}", Refused(self.cause))?;
        match (self.cause, self.call) {
            (Cause::StartDay, Call::Start(day, _)) => {
                sessions::no_session(f, register.calendar, day)
            }
            (Cause::SessionDay, Call::Session(day, _)) => {
                sessions::out_of_order(f, register, day)
            }
            (Cause::TooLate, call) => sessions::too_late(f, register, call),
            (Cause::Close, Call::Start(_, close) | Call::Session(_, close)) => {
                sessions::close_outside(f, close)
            }
            (Cause::AnnounceMonth, Call::Announce(month, _)) => {
                strikes::month_closed(f, register, month)
            }
            (Cause::AnnouncePrice, Call::Announce(month, price)) => {
                strikes::off_grid(f, register, month, price)
            }
            (Cause::AnnounceKnown, Call::Announce(month, price)) => {
                strikes::needless(f, register, month, price)
            }
            (Cause::AnnounceFull, _) => strikes::full(f, register),
            (cause, _) => opening::opening_refused(f, register, cause),
        }
    }
}
