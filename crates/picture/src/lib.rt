// The six ladders of a register as one SVG picture of 1000 by 1200 pixels: prices upwards, the live months side by side,
// a bar for each row in the colour of its origin.
#![tactic(auto)]

mod bars;
mod scale;
mod shapes;

use bars::Columns;
use layout::Origin;
use reading::Register;
use scale::{Axis, Scale};
use std::fmt;
use std::fmt::Display;
use text::Date;

// How each picture begins.
const OPENING: &str =
    "<svg xmlns='http://www.w3.org/2000/svg' width='1000' height='1200' viewBox='0 0 1000 1200'>
";

const STYLE: &str = "<style>
text{font:13px Helvetica,Arial,'Liberation Sans',sans-serif;fill:#333}
.h{font-size:24px;font-weight:bold}.m{font-size:15px;font-weight:bold}
.m,.c{text-anchor:middle}.y{text-anchor:end}.g{stroke:#ddd}.s{fill:#f0f0f0}
.o1{fill:#0072b2}.o2{fill:#56b4e9}.o3{fill:#e69f00}.o4{fill:#d55e00}.o5{fill:#999}
</style>
<rect width='1000' height='1200' fill='#fff'/>
<text class='h' x='80' y='48'>";

// Whether bytes begin as the pictures that are drawn here.
pub fn is_ours(bytes: &[u8]) -> bool {
    bytes.starts_with(OPENING.as_bytes())
}

// A register that lists nothing gives a picture that says so.
#[derive(Clone, Copy)]
pub struct Picture<'a>(pub Register<'a>);

impl Display for Picture<'_> {
    fn fmt<W: fmt::Write>(&self, f: &mut fmt::Formatter<W>) -> fmt::Result {
        let register = self.0;
        write!(f, "{OPENING}{STYLE}")?;
        match Scale::of(register) {
            None => f.write_str("No WIG20 options are listed</text>\n")?,
            Some(scale) => write!(
                f,
                "{}{}{}{}",
                Heading(register),
                Legend,
                Axis(scale),
                Columns { register, scale },
            )?,
        }
        f.write_str("</svg>\n")
    }
}

#[derive(Clone, Copy)]
struct Heading<'a>(Register<'a>);

impl Display for Heading<'_> {
    fn fmt<W: fmt::Write>(&self, f: &mut fmt::Formatter<W>) -> fmt::Result {
        let day = self.0.day();
        write!(
            f,
            "WIG20 options listed on {}</text>
<text x='80' y='74'>{} strikes, a call and a put each, {} of them new on this day</text>
",
            Date(day),
            self.0.row_count(),
            self.0.rows().listed_on(day),
        )
    }
}

// The colour of each origin. The black block that marks a new row has no origin's colour.
#[derive(Clone, Copy)]
struct Legend;

impl Display for Legend {
    fn fmt<W: fmt::Write>(&self, f: &mut fmt::Formatter<W>) -> fmt::Result {
        write!(
            f,
            "<path class='o5' d='M80 94h14v14h-14z'/><text x='101' y='106'>{}</text>
<path class='o1' d='M330 94h14v14h-14z'/><text x='351' y='106'>{}</text>
<path class='o2' d='M580 94h14v14h-14z'/><text x='601' y='106'>{}</text>
<path class='o3' d='M80 118h14v14h-14z'/><text x='101' y='130'>{}</text>
<path class='o4' d='M330 118h14v14h-14z'/><text x='351' y='130'>{}</text>
<path class='o0' d='M580 118h14v14h-14z'/><text x='601' y='130'>new on this day</text>
<text class='y' x='72' y='146'>strike</text>
",
            Origin::Start,
            Origin::Live,
            Origin::Within,
            Origin::Close,
            Origin::Announced,
        )
    }
}
