// The stored answers of the Rust, on distinctness of its definition, asked of the library again. The list's first lines say what the others
// mean.
use crate::said::Said;
use crate::{ask, ask_list, file};
use centralized_telescope::Lent;
use proof_files::{ElementList, ListRoom};
use std::io::Read;
use std::rt::Files;
use text::lines::LineReader;
use text::say::say;
use text::words;

// More lines than any list has that is meant.
const MOST_LINES: usize = 65536;

// The kinds of cases.
#[derive(Clone, Copy)]
enum Kind {
    Uniform,
    Bernoulli,
    Small,
    Distinct,
    Prove,
    Verify,
}

const KINDS: [Kind; 6] = [
    Kind::Uniform,
    Kind::Bernoulli,
    Kind::Small,
    Kind::Distinct,
    Kind::Prove,
    Kind::Verify,
];

impl Kind {
    // The kind of case that a word begins.
    fn of_word(word: &[u8]) -> Option<Kind> {
        match word {
            b"uniform" => Some(Kind::Uniform),
            b"bernoulli" => Some(Kind::Bernoulli),
            b"small" => Some(Kind::Small),
            b"distinct" => Some(Kind::Distinct),
            b"prove" => Some(Kind::Prove),
            b"verify" => Some(Kind::Verify),
            _ => None,
        }
    }

    // What the library answers to a question of this kind, into a lent text.
    fn ask(self, question: &[u8], list: Lent, text: &mut Said) -> Option<()> {
        match self {
            Kind::Uniform => ask::uniform(question, text),
            Kind::Bernoulli => ask::bernoulli(question, text),
            Kind::Small => ask::small(question, text),
            Kind::Distinct => ask_list::distinct(question, list, text),
            Kind::Prove => ask_list::prove(question, list, text),
            Kind::Verify => ask_list::verify(question, list, text),
        }
    }

    // Whose answers are stored, and of what.
    fn title(self) -> &'static str {
        match self {
            Kind::Uniform => "the Rust's answers, uniform",
            Kind::Bernoulli => "the Rust's answers, bernoulli",
            Kind::Small => "the Rust's answers, small",
            Kind::Distinct => "the definition's answers, distinct",
            Kind::Prove => "the Rust's answers, prove",
            Kind::Verify => "the Rust's answers, verify",
        }
    }

    // How many the harness stores.
    fn stored(self) -> u64 {
        match self {
            Kind::Uniform => 800,
            Kind::Bernoulli => 600,
            Kind::Small => 400,
            Kind::Distinct => 250,
            Kind::Prove => 600,
            Kind::Verify => 750,
        }
    }
}

// What is wrong with a line.
#[derive(Clone, Copy)]
enum Fault {
    // it lacks its form, or is an element past the room in `are_equal`
    Malformed,
    // the library answers something else than what is stored
    CameOut,
}

fn say_fault(rt: &impl Print, line: &[u8], fault: Fault, said: &Said) {
    match fault {
        Fault::Malformed => {
            let _ = println!(rt; "not of the list's form");
        }
        Fault::CameOut => {
            let _ = print!(rt; "came out as {said}, stored is ");
            if let Some((_, stored)) = parts(line) {
                say(rt, stored);
            }
            let _ = println!(rt);
        }
    }
}

// A case's question and its stored answer, which ` = ` parts. No question has a `=`. Called, as the questions are (ask.rt).
#[inline(never)]
fn parts(line: &[u8]) -> Option<(&[u8], &[u8])> {
    let (before, behind) = line.split_at(line.iter().position(|byte| *byte == b'=')?);
    Some((before.strip_suffix(b" ")?, behind.strip_prefix(b"= ")?))
}

// The kind of a case whose stored answer comes out. What does is in the lent text then.
fn run_case(line: &[u8], list: Lent, said: &mut Said) -> Result<Kind, Fault> {
    let (question, stored) = parts(line).ok_or(Fault::Malformed)?;
    let kind = Kind::of_word(words::first(question)).ok_or(Fault::Malformed)?;
    kind.ask(question, list, said).ok_or(Fault::Malformed)?;
    if said.as_bytes() != stored {
        return Err(Fault::CameOut);
    }
    Ok(kind)
}

// How far a list was run: the elements under way, the last answer, how many cases of each kind came out, and whether a line was wrong.
#[derive(Drop)]
struct Progress<'a> {
    elements: ElementList<'a>,
    said: Said,
    equal: [u64; 6],
    is_wrong: bool,
}

impl Progress<'_> {
    // A comment, the start of a list of elements, an element more, or a case of the elements so far.
    fn run_line(&mut self, line: &[u8]) -> Result<(), Fault> {
        if words::first(line) == b"#".as_slice() {
            return Ok(());
        }
        if line == b"list".as_slice() {
            self.elements.clear();
            return Ok(());
        }
        if let Some(element) = line.strip_prefix(b"+ ") {
            return self
                .elements
                .add_line(element)
                .map_err(|_| Fault::Malformed);
        }
        let kind = run_case(line, self.elements.lent(), &mut self.said)? as usize;
        self.equal[kind] = self.equal[kind].saturating_add(1);
        Ok(())
    }

    // The same, and what is wrong with a line is said, if it is the first such.
    fn run_or_say(&mut self, rt: &impl Print, name: &str, reader: &LineReader) {
        let line = reader.text();
        if let Err(fault) = self.run_line(line) {
            if !self.is_wrong {
                let number = reader.number();
                let _ = print!(rt; "{name} line {number}: ");
                say_fault(rt, line, fault, &self.said);
            }
            self.is_wrong = true;
        }
    }

    // The lines of an open list: whether they were read to the list's end, each of them right.
    fn run_open(&mut self, rt: &impl Print, name: &str, list: &mut impl Read) -> bool {
        let mut reader = LineReader::new();
        for _turn in 0..MOST_LINES {
            match file::is_line_read(rt, name, list, &mut reader) {
                Some(true) => self.run_or_say(rt, name, &reader),
                Some(false) => return !self.is_wrong,
                None => return false,
            }
        }
        false
    }
}

// Whether every stored answer came out, and each kind has as many as the harness stores. There is room for the elements under way; 407
// elements and some 7,200 data bytes are the most at once in answers.txt.
pub fn are_equal(rt: &(impl Files + Print), name: &str) -> bool {
    let mut room = ListRoom::<16384, 512>::new();
    let mut progress = Progress {
        elements: room.list(),
        said: Said::new(),
        equal: [0; 6],
        is_wrong: false,
    };
    let mut all_equal = match proof_files::open_or_say(rt, name.as_bytes()) {
        Some(mut list) => progress.run_open(rt, name, &mut list),
        None => false,
    };
    for kind in KINDS {
        let equal = progress.equal[kind as usize];
        all_equal = file::say_counts(rt, kind.title(), equal, kind.stored()) && all_equal;
    }
    all_equal
}
