// What is known of a price of a live month.
use base::Tier;
use reading::{Register, Span};

// Kept: tier, expiry and span are a call each, as in `report` and `picture`; a type of the three would be taken apart in each again.
// The month's tier, expiry date and span are those of the register's day.
#[derive(Clone, Copy)]
pub struct Case<'a> {
    pub register: Register<'a>,
    pub month: u32,
    pub price: u32,
    pub tier: Tier,
    pub expiry: u32,
    pub span: Span,
}

impl<'a> Case<'a> {
    // None where the month is not live.
    pub fn of(register: Register<'a>, month: u32, price: u32) -> Option<Case<'a>> {
        Some(Case {
            register,
            month,
            price,
            tier: register.tier(month),
            expiry: lookup::expiry(register.calendar, month)?,
            span: register.rows_of(month).span()?,
        })
    }

    // The coarsest tier that has the price on its grid: each finer one has it too.
    pub fn coarsest(self) -> Option<Tier> {
        [Tier::F, Tier::M, Tier::N]
            .iter()
            .copied()
            .find(|&tier| grid::on_grid(tier, self.price))
    }

    pub fn is_within(self) -> bool {
        self.span.contains(self.price)
    }
}
