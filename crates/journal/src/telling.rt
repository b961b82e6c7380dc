// What a line tells of its call's answer.
use crate::output::Answered;
use base::Cause;
use calls::Answer;
use lines::Words;
use text::Text;

// The words behind the sign `=`.
fn told(line: &[u8]) -> Words<'_> {
    let content = lines::content(line);
    let sign = content.iter().position(|&byte| byte == b'=');
    let mut words = Words::of(&content[sign.unwrap_or(content.len())..]);
    words.next();
    words
}

// Whether a line tells what its call's answer is. What it leaves out, all from `=` on or the values beside the number, is not
// compared.
pub fn agrees(line: &[u8], answer: Result<Answer, Cause>) -> bool {
    let given = Text::<128>::of(Answered(answer));
    let mut given = Words::of(given.as_bytes());
    told(line).all(|word| given.next() == Some(word))
}

// What stands behind the sign `=`: the number, and the values beside it.
pub fn answer_in(line: &[u8]) -> &[u8] {
    told(line).rest()
}

// The number that a line tells, if it tells one.
pub fn number_told(line: &[u8]) -> Option<u32> {
    told(line).next().and_then(text::read_number)
}
