// Room for whole files and journals, and for what is read of them.
#![tactic(auto)]

ghost use Rattle.std.specs.Prelude.{◌≡◌, length};

// How long the text of a journal may be.
pub const JOURNAL_LENGTH: usize = 4194304;

// How many calls it may have: a century of sessions and many announcements.
pub const MOST_CALLS: usize = 65536;

// How long a list of days may be: a hundred bytes for each of a century's weekdays without session, ten times over.
pub const LIST_LENGTH: usize = 1048576;

// How long the longest text is that is written out: every row of a full register in words, or drawn.
pub const OUTPUT_LENGTH: usize = 262144;

// One value over and over. The contract tells the length: a caller's proof that counted the values of an array would take by
// their number.
pub fn filled<T: Copy, const N: usize>(value: T) -> [T; N]
    ensures { N ≡ length result }
{
    [value; N]
}

// Zeros for the bytes of a file.
pub fn zeros<const N: usize>() -> [u8; N]
    ensures { N ≡ length result }
{
    filled(0)
}
