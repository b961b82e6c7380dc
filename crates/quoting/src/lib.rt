// Names of files as words of a command line, for messages that tell a command to run.
#![tactic(auto)]

use text::Text;

// Letters that a shell leaves as they are.
fn is_plain(byte: u8) -> bool {
    matches!(byte, b'-'..=b'9' | b'a'..=b'z' | b'A'..=b'Z' | b'_')
}

// A letter between quotes, which a quote itself has to leave.
fn put_quoted<const N: usize>(out: &mut Text<N>, byte: u8) {
    if byte == b'\'' {
        out.put(b"'\\''");
    } else {
        out.put(&[byte]);
    }
}

// A name as a word of a command line: in quotes where a shell would read something else, and never like an option.
pub fn put_word<const N: usize>(out: &mut Text<N>, name: &[u8]) {
    if name.starts_with(b"-") {
        out.put(b"./");
    }
    if name.iter().all(|&byte| is_plain(byte)) {
        out.put(name);
        return;
    }
    out.put(b"'");
    for &byte in name {
        put_quoted(out, byte);
    }
    out.put(b"'");
}
