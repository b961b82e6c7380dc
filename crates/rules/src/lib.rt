// The rules by which engine and history are judged are definitions (specs/). The code has the live months, by the first of them.
#![tactic(auto)]

mod live;

ghost use Rattle.std.specs.Prelude.{◌≡◌};
ghost use Rattle.calendar.specs.Live.{live_months, tier_of};
ghost use Rattle.rules.specs.FirstMonths.{MonthsFrom};

use base::{Cause, Tier};
pub use live::{LAST_FIRST_MONTH, LiveMonths};

impl TryFrom<u16> for LiveMonths {
    type Error = Cause;

    ghost try_from_gives = { MonthsFrom };

    fn try_from(first: u16) -> Result<LiveMonths, Cause> {
        if first <= LAST_FIRST_MONTH {
            Ok(LiveMonths { first })
        } else {
            Err(Cause::TooLate)
        }
    }
}

impl LiveMonths {
    // All six.
    pub fn months(self) -> [u16; 6]
        ensures { result ≡ live_months self.first }
    {
        calendar::live_months(self.first)
    }

    // The tier that a month has where these months are live.
    pub fn tier(self, month: u16) -> Tier
        ensures { result ≡ tier_of self.first month }
    {
        calendar::tier_of(self.first, month)
    }
}
