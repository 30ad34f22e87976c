// The settings and the amounts as a C header.
ghost use Rattle.std.specs.Prelude.{◌≡◌, ◌+◌, min, max};

use arguments::{Figures, say_argument};
use centralized_telescope::{Amounts, Params};
use outcomes::unless_refused;
use std::cmp::max;
use std::rt::Env;

// The command that the header comes from: the program with its arguments, up to the last.
fn say_command(rt: &(impl Env + Print), last: usize) {
    let _ = print!(rt; "plan");
    for i in 1..=last {
        let _ = print!(rt; " ");
        say_argument(rt, i);
    }
}

// Too few elements go green under at most one in 2 to this power of all functions in SHA-256's place: the better of the two claims of the
// theorem `seldom_green`, 2^(s + 1) with s up to 207 and 2^(s + 2) with s up to 204.
fn seldom_power(soundness: u64) -> u64
    ensures { result ≡ max (min soundness 207 + 1) (min soundness 204 + 2) }
{
    max(soundness.min(207) + 1, soundness.min(204) + 2)
}

// What the security figures asked for.
fn say_figures(rt: &impl Print, f: Figures) {
    let Figures {
        soundness,
        completeness,
        set_size,
        lower_bound,
    } = f;
    let power = seldom_power(soundness);
    let _ = println!(rt;
        " * For soundness {soundness} and completeness {completeness} against a lower bound of {lower_bound} of {set_size}, \
        in the sense of the telescope's paper:"
    );
    let _ = println!(rt;
        " * the smallest proof size by the formula of the Rust's params.rs, log2 e cut to six decimals, and its small case."
    );
    let _ = println!(rt;
        " * Proved (seldom_green): who has at most {lower_bound} elements goes green under at most one in 2^{power} of all functions"
    );
    let _ = println!(rt; " * in SHA-256's place.\n *");
}

fn say_comment(rt: &(impl Env + Print), figures: Option<Figures>, longest: u64, last: usize) {
    let _ = print!(rt; "/*\n * Made by: ");
    say_command(rt, last);
    let _ = println!(rt; "\n *");
    if let Some(f) = figures {
        say_figures(rt, f);
    }
    let _ = println!(rt;
        " * The telescope's settings, X being ALBA_X_HIGH * 2^64 + ALBA_X_LOW; and what to reserve for a run under them,"
    );
    let _ = println!(rt;
        " * if no element has more than {longest} data bytes: a prover that is lent so much never answers 6, nor the writer"
    );
    let _ = println!(rt; " * of its proof's ticket 42.\n *");
    let _ = println!(rt;
        " * The verifier refuses a proof of the last try, R = ALBA_MAX_RETRIES, with 21. So ask for one try more than you want:"
    );
    let _ = println!(rt;
        " * with ALBA_MAX_RETRIES 1 nothing that the prover finds goes green.\n */"
    );
}

// A setting.
fn say_setting(rt: &impl Print, name: &str, n: u64) {
    let _ = println!(rt; "#define ALBA_{name} UINT64_C({n})");
}

// A half of X.
fn say_half(rt: &impl Print, name: &str, n: u64) {
    let _ = println!(rt; "#define ALBA_{name} UINT64_C(0x{n:016x})");
}

// An amount, and what is of that size.
fn say_amount(rt: &impl Print, name: &str, n: u64, what: &str) {
    let _ = println!(rt; "#define ALBA_{name} UINT64_C({n}) /* {what} */");
}

fn say_settings(rt: &impl Print, p: Params) {
    let x = p.x;
    say_setting(rt, "SET_SIZE", p.set_size);
    say_setting(rt, "PROOF_SIZE", p.proof_size);
    say_setting(rt, "MAX_RETRIES", p.max_retries);
    say_setting(rt, "SEARCH_WIDTH", p.search_width);
    say_setting(rt, "DFS_BOUND", p.dfs_bound);
    say_half(rt, "X_HIGH", x.hi);
    say_half(rt, "X_LOW", x.lo);
}

fn say_amounts(rt: &impl Print, a: Amounts) {
    say_amount(
        rt,
        "PLACES",
        a.places,
        "uint32_t numbers: the places that the prover is lent",
    );
    say_amount(
        rt,
        "BIN_TABLE",
        a.bin_table,
        "uint32_t numbers: its bin table",
    );
    say_amount(rt, "MOST_STEPS", a.most_steps, "no run counts more");
    say_amount(
        rt,
        "TICKET_BLOCKS",
        a.ticket_blocks,
        "blocks of 512 bytes: the ticket of its proof",
    );
}

// The header for settings, with the figures that they were made for, if any, and a longest data length, all from the arguments up to
// `last`. What is refused gets only the refusal.
pub fn say_planned(
    rt: &(impl Env + Print),
    p: Params,
    figures: Option<Figures>,
    longest: u64,
    last: usize,
) {
    let Some(a) = unless_refused(rt, centralized_telescope::plan(p, longest)) else {
        return;
    };
    say_comment(rt, figures, longest, last);
    let _ = print!(rt;
        "#ifndef ALBA_SETTINGS_H\n#define ALBA_SETTINGS_H\n\n#include <stdint.h>\n\n"
    );
    say_settings(rt, p);
    let _ = println!(rt);
    say_amounts(rt, a);
    let _ = print!(rt; "\n#endif\n");
}
