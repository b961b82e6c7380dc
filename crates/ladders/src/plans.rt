// What the six ladders of a start or a session are written from.
ghost use Rattle.std.specs.Prelude.{◌≡◌, ◌<◌, get_or};
ghost use Rattle.layout.specs.Origins.{origin_code};
ghost use Rattle.ladders.specs.Writing.{strikes, some_strikes, plan_at, Ready};

use crate::Plan;
use grid::Strikes;
use layout::Origin;

// A day, its live months, and of each month its span before, that span as the close alone widens it, and its span of the day.
// Kept: six pairs, zeros for a month that held none. As Options of `Strikes` they would be made by four `map`s in relisting, to save three calls in `plan`.
#[derive(Drop)]
pub struct Plans {
    // The first day of a row that is added.
    pub day: u16,
    // The origin of all rows of a month that held no span before.
    pub origin: Origin,
    pub months: [u16; 6],
    pub held: [[u16; 2]; 6],
    pub wide: [[u16; 2]; 6],
    pub spans: [[u16; 2]; 6],
    // The spans lie on their months' grids, and the register has room for them.
    pub ghost ready: { Ready (get_or months 0 0) (plan_at day (origin_code origin) months held wide spans) },
}

// The same with any byte for the origin.
#[derive(Drop)]
pub(crate) struct AnyPlans {
    pub day: u16,
    pub origin: u8,
    pub months: [u16; 6],
    pub held: [[u16; 2]; 6],
    pub wide: [[u16; 2]; 6],
    pub spans: [[u16; 2]; 6],
    pub ghost ready: { Ready (get_or months 0 0) (plan_at day origin months held wide spans) },
}

fn strikes(pair: [u16; 2]) -> Strikes
    ensures { result ≡ strikes pair }
{
    let [low, high] = pair;
    Strikes { low, high }
}

// Zeros are no span.
fn some_strikes(pair: [u16; 2]) -> Option<Strikes>
    ensures { result ≡ some_strikes pair }
{
    if pair[0] == 0 {
        None
    } else {
        Some(strikes(pair))
    }
}

impl Plans {
    // The same plans, whose origin is one of the five bytes.
    pub(crate) fn any(&self) -> AnyPlans
        ensures numbers { (result.day ≡ self.now.day) × (result.origin ≡ origin_code self.now.origin) × (result.months ≡ self.now.months) }
        ensures spans { (result.held ≡ self.now.held) × (result.wide ≡ self.now.wide) × (result.spans ≡ self.now.spans) }
    {
        AnyPlans {
            day: self.day,
            origin: self.origin.code(),
            months: self.months,
            held: self.held,
            wide: self.wide,
            spans: self.spans,
        }
    }

    // The plan of the month at a position.
    pub fn plan(&self, i: usize) -> Plan
        requires { i < 6 }
        ensures { result ≡ plan_at self.now.day (origin_code self.now.origin) self.now.months self.now.held self.now.wide self.now.spans i }
    {
        self.any().plan(i)
    }
}

impl AnyPlans {
    // The plan of the month at a position.
    pub(crate) fn plan(&self, i: usize) -> Plan
        requires { i < 6 }
        ensures { result ≡ plan_at self.now.day self.now.origin self.now.months self.now.held self.now.wide self.now.spans i }
    {
        let month = self.months[i];
        Plan {
            month,
            tier: calendar::tier_of(self.months[0], month),
            day: self.day,
            origin: self.origin,
            span: strikes(self.spans[i]),
            held: some_strikes(self.held[i]),
            wide: strikes(self.wide[i]),
        }
    }
}
