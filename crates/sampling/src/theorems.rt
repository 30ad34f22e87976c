// What is promised beyond the single calls. The function here does nothing: its contract is a theorem of `specs/`, so that the crate is not
// proved without it, and the check names it.
ghost use Rattle.sampling.specs.later.Hasher.{HasherHashes};

// From `new` on, a hasher's `finish` gives `hashed` of all the strings that were absorbed, joined.
pub fn hasher_hashes()
    ensures { HasherHashes }
{}
