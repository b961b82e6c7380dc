// Going through a line's words, and through a text's lines.
ghost use Rattle.std.specs.Prelude.{length};
ghost use Rattle.std.specs.Iterator.{at_most};

fn is_blank(byte: u8) -> bool {
    matches!(byte, b' ' | b'\t' | b'\r')
}

// The words of a line. Going through a copy leaves the others where they are.
#[derive(Clone, Copy)]
pub struct Words<'a> {
    rest: &'a [u8],
}

impl<'a> Words<'a> {
    pub fn of(line: &'a [u8]) -> Self {
        Words { rest: line }
    }

    // What is left, from the next word on.
    pub fn rest(self) -> &'a [u8] {
        let start = self.rest.iter().position(|&byte| !is_blank(byte));
        &self.rest[start.unwrap_or(self.rest.len())..]
    }
}

impl<'a> Iterator for Words<'a> {
    type Item = &'a [u8];

    ghost remaining = { λ s. at_most (length s.rest.now) };

    fn next(&mut self) -> Option<&'a [u8]> {
        let start = self.rest.iter().position(|&byte| !is_blank(byte))?;
        let behind = &self.rest[start + 1..];
        let end = behind.iter().position(|&byte| is_blank(byte));
        let end = end.unwrap_or(behind.len());
        let word = &self.rest[start..=start + end];
        self.rest = &behind[end..];
        Some(word)
    }
}

// The lines of a text that end in a line feed, without it, and with their numbers.
#[derive(Clone, Copy)]
pub struct Numbered<'a> {
    rest: &'a [u8],
    number: u32,
}

impl<'a> Numbered<'a> {
    pub fn of(text: &'a [u8]) -> Self {
        Numbered {
            rest: text,
            number: 0,
        }
    }

    pub fn rest(self) -> &'a [u8] {
        self.rest
    }
}

impl<'a> Iterator for Numbered<'a> {
    type Item = (u32, &'a [u8]);

    ghost remaining = { λ s. at_most (length s.rest.now) };

    fn next(&mut self) -> Option<(u32, &'a [u8])> {
        let (line, rest) = text::split_once(self.rest, b'\n')?;
        self.rest = rest;
        self.number = self.number.saturating_add(1);
        Some((self.number, line))
    }
}

// The lines before that of a number.
pub fn before(text: &[u8], number: u32) -> &[u8] {
    let mut lines = Numbered::of(text);
    if (1..number).any(|_| lines.next().is_none()) {
        return text;
    }
    let end = text.len().saturating_sub(lines.rest().len());
    &text[..end]
}
