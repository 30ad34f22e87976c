// Whether two elements of the file are the same, and on which lines. A proof is searched for all the same: the prover doesn't ask.
//
// The file has an element to a line, so the first k lines are the list's first k elements.
use centralized_telescope::{Lent, check_distinct};
use proof_files::{elements, first_elements, say_of_file};
use text::say::say;

// Whether two of the first k lines have the same element.
fn is_repeated(list: Lent, k: usize) -> bool {
    check_distinct(first_elements(list, k)) == Ok(false)
}

// The first line whose element stands on an earlier one, of a list that has such a line. By halves, since each question is a sort of its
// own: 16 of them for 65,536 elements. It isn't std's `partition_point`, which searches a slice, and here there is none.
fn first_repeat(list: Lent) -> usize {
    let mut without = 0;
    let mut with = list.ends.len();
    while 1 < with - without {
        let middle = without + (with - without) / 2;
        if is_repeated(list, middle) {
            with = middle;
        } else {
            without = middle;
        }
    }
    with
}

// The first line that has the element of line k, or k.
fn first_line_of(list: Lent, k: usize) -> usize {
    (1..k)
        .find(|line| elements::are_same(list, *line - 1, k - 1))
        .unwrap_or(k)
}

// Says whether two elements of the file are the same: which line is the first whose element stands on an earlier one, and on which.
pub fn say_repeats(rt: &impl Print, name: &[u8], list: Lent) {
    match check_distinct(list) {
        Ok(true) => say_of_file(rt, name, "no two elements are the same"),
        Ok(false) => {
            let later = first_repeat(list);
            let earlier = first_line_of(list, later);
            say(rt, name);
            let _ = println!(rt;
                ", lines {earlier} and {later}: the same element; a list with repeats proves less than it seems to"
            );
        }
        // The prover refuses the list too, and says so.
        Err(_) => {}
    }
}
