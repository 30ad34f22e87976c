// What is summed up over the trees of a range of search counters.

// A chain has one of so many lengths at most: 0 to the greatest proof size.
pub const LENGTHS: usize = 1025;

// So many search counters whose trees are left out are named.
pub const NAMED: usize = 16;

// Chains of a kind: how many in all trees, and how many in the tree that has the most.
#[derive(Clone, Copy)]
pub struct Chains {
    pub total: u64,
    pub largest: u64,
}

impl Chains {
    ghost use Rattle.std.specs.Prelude.{◌≡◌};
    ghost use Rattle.shape.specs.Counts.{no_chains, with_count};

    fn none() -> Chains
        ensures { result ≡ no_chains }
    {
        Chains {
            total: 0,
            largest: 0,
        }
    }

    // With those of one tree more.
    fn add(&mut self, count: u64)
        ensures { self.new ≡ with_count self.old count }
    {
        self.total = self.total.saturating_add(count);
        self.largest = self.largest.max(count);
    }
}

// The trees so far. As many trees as are asked for have fewer chains than 2^64, so that no sum is cut.
#[derive(Drop)]
pub struct Sums {
    // by length
    pub lengths: [Chains; LENGTHS],
    // of all lengths
    pub all: Chains,
    pub passing: u64,
    // how many trees these are
    pub trees: u64,
    // how many more were left out, and the search counters of the first of them
    pub left_out: u64,
    pub named: [u64; NAMED],
}

impl Sums {
    ghost use Rattle.std.specs.Prelude.{◌≡◌, ◌+◌, ◌-◌, ◌^◌, ◌≤◌, ◌<◌, min, IfSome};
    ghost use Rattle.std.specs.Prelude.{replicate, slice_set, slice_index, slice_index_or, EachIndex};
    ghost use Rattle.std.specs.List.{sum};
    ghost use Rattle.shape.specs.Counts.{no_chains, with_count};

    // Of no tree.
    pub fn new() -> Sums
        ensures none { (result.trees ≡ 0) × (result.left_out ≡ 0) × (result.passing ≡ 0) × (result.all.total ≡ 0) }
        ensures no_chain { result.lengths ≡ replicate 1025 no_chains }
    {
        Sums {
            lengths: [Chains::none(); LENGTHS],
            all: Chains::none(),
            passing: 0,
            trees: 0,
            left_out: 0,
            named: [0; NAMED],
        }
    }

    // With a tree more: its chains by length, and how many pass.
    #[tactic(auto, using(std::proofs::lemmas::List::Sums::sum_by_more))]
    pub fn add(&mut self, counts: &[u64; LENGTHS], passing: u64)
        ensures trees { (self.new.trees ≡ min (self.old.trees + 1) (2 ^ 64 - 1)) × (self.new.left_out ≡ self.old.left_out) }
        ensures passing { self.new.passing ≡ min (self.old.passing + passing) (2 ^ 64 - 1) }
        ensures named { self.new.named ≡ self.old.named }
        ensures all { self.new.all ≡ with_count self.old.all (min (sum counts.now) (2 ^ 64 - 1)) }
        ensures lengths { EachIndex self.new.lengths (λ k. slice_index_or self.new.lengths k no_chains
            ≡ with_count (slice_index_or self.old.lengths k no_chains) (slice_index counts.now k)) }
    {
        let mut all = 0u64;
        for (length, count) in counts.iter().enumerate() {
            self.lengths[length].add(*count);
            all = all.saturating_add(*count);
        }
        self.all.add(all);
        self.passing = self.passing.saturating_add(passing);
        self.trees = self.trees.saturating_add(1);
    }

    // With a tree more that is left out, that of this search counter.
    pub fn leave_out(&mut self, search: u64)
        ensures one_more { self.new.left_out ≡ min (self.old.left_out + 1) (2 ^ 64 - 1) }
        ensures named { self.old.left_out < 16 → self.new.named ≡ slice_set self.old.named self.old.left_out search }
        ensures not_named { 16 ≤ self.old.left_out → self.new.named ≡ self.old.named }
        ensures same { (self.new.lengths ≡ self.old.lengths) × (self.new.all ≡ self.old.all) }
        ensures counts { (self.new.trees ≡ self.old.trees) × (self.new.passing ≡ self.old.passing) }
    {
        let place = self.left_out as usize;
        if place < NAMED {
            self.named[place] = search;
        }
        self.left_out = self.left_out.saturating_add(1);
    }

    // The greatest length that a chain has. None where there is no chain.
    pub fn longest(&self) -> Option<usize>
        ensures within { IfSome result (λ n. n < 1025) }
    {
        self.lengths.iter().rposition(|chains| 0 < chains.total)
    }

    // The greatest total of a length.
    pub fn greatest_total(&self) -> u64
        ensures { EachIndex self.now.lengths (λ k. (slice_index_or self.now.lengths k no_chains).total ≤ result) }
    {
        let mut greatest = 0;
        for chains in &self.lengths {
            greatest = chains.total.max(greatest);
        }
        greatest
    }
}
