// What is promised beyond the single calls. Each function here does nothing: its contract is a theorem of `specs/`, so that the crate is
// not proved without it, and the check names it.
ghost use Rattle.centralized_telescope.specs.later.AllCases.{AllCases, CasesServed};
ghost use Rattle.centralized_telescope.specs.core.Demand3.{Demand3Claim, ServedExample};
ghost use Rattle.centralized_telescope.specs.later.FoundExample.{FoundExample};
ghost use Rattle.centralized_telescope.specs.later.VerdictExactly.{VerdictExactly};
ghost use Rattle.centralized_telescope.specs.later.Distinct.{DistinctExactly};
ghost use Rattle.centralized_telescope.specs.later.PoolClaims.{PoolAsOneList, PoolGuaranteed};
ghost use Rattle.centralized_telescope.specs.later.ShapeClaims.{CountsExact, TotalsK, PassingFull, ShapeExample};
ghost use Rattle.centralized_telescope.specs.later.RaisingClaims.{RaisedTry, RaisedRun, RaisedAnswer, RaisedExample};
ghost use Rattle.centralized_telescope.specs.later.TwoProductsClaims.{PartiesApart, TryGuaranteed, LastAloneClaim, PartiesExample};
ghost use Rattle.centralized_telescope.specs.later.FirstLayout.{FirstRefused};
ghost use Rattle.centralized_telescope.specs.later.PlanClaims.{PlanSuffices, PlanNeeded, StepsNotPassed, TicketFitsClaim, TicketBounded};
ghost use Rattle.centralized_telescope.specs.later.PlanClaims.{TightExample};
ghost use Rattle.centralized_telescope.specs.later.PrepareClaims.{PairProves, RunsTold, ChangeNoticed};
ghost use Rattle.centralized_telescope.specs.later.ProofList.{ProofListed};
ghost use Rattle.centralized_telescope.specs.later.ProofSize.{SizeNeverFalls, SizeNeverRises, SizeOneAnswer};
ghost use Rattle.centralized_telescope.specs.later.TicketClaims.{ReadsBack, WritesBack, JudgedAlike, BytesJudgedAlike};
ghost use Rattle.centralized_telescope.specs.later.TicketClaims.{TicketsExactly, BlocksCounted};

// The claim on prove and verify at once, for every run that is served.
pub fn demand_3()
    ensures { Demand3Claim }
{}

// One such run: the claim's premise can be met.
pub fn served_example()
    ensures { ServedExample }
{}

// One that finds a proof, which the verifier accepts.
pub fn found_example()
    ensures { FoundExample }
{}

// The verdict under any settings, on any counters and any list: which number comes exactly when.
pub fn verdict_exactly()
    ensures { VerdictExactly }
{}

// Cases a to l of document 01, of the definitions that the contracts cite.
pub fn all_cases()
    ensures { AllCases }
{}

// Runs of cases i to l are served, with one element and with two.
pub fn cases_served()
    ensures { CasesServed }
{}

// On an accepted list the answer of `check_distinct` is yes exactly when no two places hold the same element.
pub fn distinct_exactly()
    ensures { DistinctExactly }
{}

// On lists and a pool that aren't refused `prove_pool` answers as `prove` does on any accepted list with the pool's elements.
pub fn pool_as_one_list()
    ensures { PoolAsOneList }
{}

// Demand 3's sentences on the prover and on its proof hold of `prove_pool`, read over the pool's elements.
pub fn pool_guaranteed()
    ensures { PoolGuaranteed }
{}

// A try that finds a chain under a bound finds it under each higher one, with the same count.
pub fn raised_try()
    ensures { RaisedTry }
{}

// A run that finds a proof under a bound which no earlier try reached answers the same under each higher one.
pub fn raised_run()
    ensures { RaisedRun }
{}

// What a higher bound can make of any answer: a proof stays a proof, of no later try; 12 and a refusal stay as they are; after 11 a proof
// comes only from a try that had reached the lower bound.
pub fn raised_answer()
    ensures { RaisedAnswer }
{}

// A run in which an earlier try reached the lower bound, and whose proof is another under the higher.
pub fn raised_example()
    ensures { RaisedExample }
{}

// What a party of `two_products` is answered, and its places afterwards, are the same whoever the other party is.
pub fn parties_apart()
    ensures { PartiesApart }
{}

// Demand 3's sentences on the prover, read for one try, hold of what a party is answered.
pub fn try_guaranteed()
    ensures { TryGuaranteed }
{}

// The last try of a run of `prove`, run alone on the bin table that the run leaves, isn't refused. It counts what the run's last try
// added, and has the run's proof, or none where the run has none.
pub fn last_alone()
    ensures { LastAloneClaim }
{}

// Two parties served from one bin table, and parties refused with 47 and 48.
pub fn parties_example()
    ensures { PartiesExample }
{}

// A ticket written and read, into buffers with room, gives R, S and the elements that were written.
pub fn ticket_reads_back()
    ensures { ReadsBack }
{}

// What was read from a ticket, written into a buffer with room, gives the ticket.
pub fn ticket_writes_back()
    ensures { WritesBack }
{}

// The verdict on a proof that was written and read is the one on the proof.
pub fn ticket_judged_alike()
    ensures { JudgedAlike }
{}

// What was read from a ticket, its ends and indexes written in bytes, has the same verdict of `alba_verify`.
pub fn bytes_judged_alike()
    ensures { BytesJudgedAlike }
{}

// Of whole blocks whose checks hold, the reader's 41 is for those that are no proof's ticket; 40 is for damaged bytes, 42 for a proof's
// ticket and a buffer too short. No two proofs have one ticket.
pub fn tickets_exactly()
    ensures { TicketsExactly }
{}

// The first four bytes of a ticket are the number of its blocks; whole blocks whose checks hold, but not so many, are refused with 41.
pub fn blocks_counted()
    ensures { BlocksCounted }
{}

// A ticket of the first layout, without a number of blocks, is refused with 41 if R is below 2^32, whatever S and the elements are. With
// R = 2^32 one is another proof's ticket.
pub fn first_layout_refused()
    ensures { FirstRefused }
{}

// With the planned amounts lent the prover never gives 6, for every list.
pub fn plan_suffices()
    ensures { PlanSuffices }
{}

// With fewer places or fewer bin-table numbers than planned it gives 6, for every accepted list.
pub fn plan_needed()
    ensures { PlanNeeded }
{}

// No run counts more steps than planned, whatever it is lent.
pub fn steps_not_passed()
    ensures { StepsNotPassed }
{}

// A proof found, in any accepted list of its elements, fits the planned blocks as a ticket, where no element's data is longer than planned
// for.
pub fn ticket_fits()
    ensures { TicketFitsClaim }
{}

// No ticket, whoever wrote it, has more blocks than those of 24 bytes and, for each element, 13 and the longest data.
pub fn ticket_bounded()
    ensures { TicketBounded }
{}

// Elements whose ticket takes all the blocks that are planned for.
pub fn tight_example()
    ensures { TightExample }
{}

// Of figures within the ranges: the proof size never falls when soundness, completeness or the lower bound grows. No size (44) counts as
// greater than any.
pub fn size_never_falls()
    ensures { SizeNeverFalls }
{}

// Nor does it rise when the set grows.
pub fn size_never_rises()
    ensures { SizeNeverRises }
{}

// Two answers of `proof_size` to the same figures are the same: its relation has one answer alone.
pub fn size_one_answer()
    ensures { SizeOneAnswer }
{}

// What `write_proof` leaves is a list that is accepted, of the elements at the places.
pub fn proof_listed()
    ensures { ProofListed }
{}

// If nothing covered changed since `prepare`, `commit` ends as `prove` does on what it is handed.
pub fn pair_proves()
    ensures { PairProves }
{}

// The bytes that `prepare` hashes are few enough for the hash, and determine settings and elements.
pub fn runs_told()
    ensures { RunsTold }
{}

// A covered change that passes the checks gives 46, unless two byte strings have one digest.
pub fn change_noticed()
    ensures { ChangeNoticed }
{}

// The counts of `count_chains` are the numbers of the chains that exist, length by length, and of those that pass; and 50 comes exactly where
// more exist than dfs_bound.
pub fn counts_exact()
    ensures { CountsExact }
{}

// Summed over the search counters of a try in which nothing passes, they are its K.
pub fn totals_k()
    ensures { TotalsK }
{}

// No more chains pass than there are of proof_size places, and each that passes is one of these.
pub fn passing_full()
    ensures { PassingFull }
{}

// Trees with and without a chain that passes, and one under a bound that is one too low.
pub fn shape_example()
    ensures { ShapeExample }
{}
