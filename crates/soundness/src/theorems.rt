// Each function here does nothing: its contract is a theorem of `specs/`. The crate isn't proved without it, and the check prints its name.
ghost use Rattle.soundness.specs.Functions.{TablesAreFunctions};
ghost use Rattle.soundness.specs.Green.{SeldomGreen, GreenShare, MadeByCalls, GreenExample};

// With settings made from security figures and at most f elements, at most one in 2^(s + 1) of all functions is green, whatever is sent, an
// s above 207 counting as 207; and the verifier with SHA-256 in the function's place is ours.
pub fn seldom_green()
    ensures { SeldomGreen }
{}

// The share of green functions for any settings, and at most set_size elements.
pub fn green_share()
    ensures { GreenShare }
{}

// What is counted are all functions from strings of at most so many bytes to digests, each once.
pub fn tables_are_functions()
    ensures { TablesAreFunctions }
{}

// What `proof_size` and `param_small_case` answer are settings made from the figures.
pub fn made_by_calls()
    ensures { MadeByCalls }
{}

// Such settings, and a function under which a proof is green.
pub fn green_example()
    ensures { GreenExample }
{}
