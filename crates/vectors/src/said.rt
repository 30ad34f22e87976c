// An answer as text, as the stored ones are: words parted by single spaces.
use arrayvec::ArrayString;
use itoa::{Buffer, Integer};

// Room for any answer: the longest has 1,040 places of up to ten digits each. No `String`: it may fail for want of memory, and the program
// would then say what it never said.
pub type Said = ArrayString<16384>;

// Puts a number at a text's end, behind a space where something is before it. Not by `write!`, which takes longer than the question does.
pub fn put_number(text: &mut Said, n: impl Integer) -> Option<()> {
    if !text.is_empty() {
        text.try_push(' ').ok()?;
    }
    text.try_push_str(Buffer::new().format(n)).ok()
}

// An answer that begins with these numbers, in a lent text of which nothing is left. The room is lent, and not handed back by value: it is
// far longer than most answers, and clearing and moving it would take ten times as long as they do.
pub fn said(text: &mut Said, numbers: &[u64]) -> Option<()> {
    text.clear();
    for n in numbers {
        put_number(text, *n)?;
    }
    Some(())
}
