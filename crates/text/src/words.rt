// The words of a line, which single spaces part. Two spaces together have an empty word between them.
ghost use Rattle.std.specs.Prelude.{◌≡◌, ◌==◌, position};
ghost use Rattle.text.specs.Words.{word_count, first_word, behind_first, behind_words};

fn first_space(line: &[u8]) -> Option<usize>
    ensures { result ≡ position (λ c. c == 32) line.now }
{
    line.iter().position(|byte| *byte == b' ')
}

// The first word of a line: all of it where it has no space.
pub fn first(line: &[u8]) -> &[u8]
    ensures { result.now ≡ first_word line.now }
{
    match first_space(line) {
        Some(n) => &line[..n],
        None => line,
    }
}

// What follows the first space.
fn behind(line: &[u8]) -> &[u8]
    ensures { result.now ≡ behind_first line.now }
{
    match first_space(line) {
        Some(n) => &line[n + 1..],
        None => &[],
    }
}

// How many words a line has: one more than spaces.
pub fn count(line: &[u8]) -> usize
    ensures { result ≡ word_count line.now }
{
    line.iter().filter(|byte| **byte == b' ').count() + 1
}

// Word n of a line, counted from 0; an empty one where there is none.
pub fn word(line: &[u8], n: usize) -> &[u8]
    ensures { result.now ≡ first_word (behind_words n line.now) }
{
    let mut rest = line;
    for _ in 0..n {
        rest = behind(rest);
    }
    first(rest)
}
