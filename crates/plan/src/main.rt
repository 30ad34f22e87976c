// Prints a C header for whoever links a prover or a loader: the settings, and how much to reserve for a run under them.
//
//     plan security S C N F LONGEST
//     plan case SET_SIZE U C LONGEST
//     plan settings SET_SIZE PROOF_SIZE MAX_RETRIES SEARCH_WIDTH DFS_BOUND X LONGEST
//
// The first takes the security figures, whole numbers: soundness S, completeness C, set size N and the lower bound F to be shown. The proof
// size is then that of `proof_size`, and the other settings are its small case's. The second takes the small case's settings for proofs of
// U elements and completeness C, the third each setting by itself. LONGEST is the most data bytes that an element will have. With U, C is a
// whole number, or 0x and the 16 hexadecimal digits of a double's bits; X has 32 hexadecimal digits. The header is printed once every
// argument is read and nothing is refused. If an argument is wrong, one line says which argument it is and what its limits are. If no
// proof size is enough for the figures, one line says that. No compiler takes either line for a header. With another number of arguments
// it says how it is called.
#![tactic(auto)]

mod header;

use arguments::{Argument, PastLimits, Reading, is_word};
use centralized_telescope::Params;
use std::rt::Env;

fn say_usage(rt: &impl Print) {
    let _ = print!(rt;
        "\
usage: plan security S C N F LONGEST
       plan case SET_SIZE U C LONGEST
       plan settings SET_SIZE PROOF_SIZE MAX_RETRIES SEARCH_WIDTH DFS_BOUND X LONGEST
S, N, F  soundness, 0 to 256; set size, 2 to 32768; the lower bound to be shown, 1 to N - 1
U        proof size, 1 to 1024
C        completeness: with S 1 to 1024, with U 0 to 65535; there also 0x and 16 hexadecimal digits of a double
X        the threshold of 128 bits, in 32 hexadecimal digits
LONGEST  the most data bytes that an element will have, 0 to 4096
A C header is printed: the settings, and how much to reserve for a run
"
    );
}

// The settings follow the first word, each within its limits.
const BEHIND_WORD: Reading = Reading {
    first: 2,
    past_limits: PastLimits::Said,
};

// The longest data, which is the last argument.
fn longest_at(rt: &(impl Env + Print), last: usize) -> Option<u64> {
    let longest = Argument {
        place: last,
        name: "LONGEST",
    };
    longest.whole_within(rt, 0..=4096)
}

// The header for the settings asked for and for the longest data, which is argument `last`; or nothing but the message that says why not.
fn answer(rt: &(impl Env + Print), asked: Option<Params>, last: usize) {
    let Some(p) = asked else {
        return;
    };
    if let Some(longest) = longest_at(rt, last) {
        header::say_planned(rt, p, None, longest, last);
    }
}

// The same for the security figures. A wrong argument is named before it is asked whether any proof size is enough.
fn answer_security(rt: &(impl Env + Print), last: usize) {
    let Some(figures) = BEHIND_WORD.security_figures(rt) else {
        return;
    };
    let Some(longest) = longest_at(rt, last) else {
        return;
    };
    if let Some(p) = figures.settings(rt) {
        header::say_planned(rt, p, Some(figures), longest, last);
    }
}

fn main(rt: HostRuntime) {
    // The program's own name is among them.
    let words = arguments::count(&rt);
    if words == 7 && is_word(&rt, 1, b"security") {
        answer_security(&rt, 6);
        return;
    }
    if words == 6 && is_word(&rt, 1, b"case") {
        answer(&rt, BEHIND_WORD.small_case(&rt), 5);
        return;
    }
    if words == 9 && is_word(&rt, 1, b"settings") {
        answer(&rt, BEHIND_WORD.each_by_itself(&rt), 8);
        return;
    }
    say_usage(&rt);
}
