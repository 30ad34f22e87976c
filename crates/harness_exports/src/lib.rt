// Calls that the Rust harness alone makes, on numbers and byte slices. They are no part of what a loader links.
#![tactic(auto)]

ghost use Rattle.std.specs.Prelude.{◌≡◌, [], ◌++◌, length};
ghost use Rattle.centralized_telescope.specs.later.Blocks.{bodies_of};
ghost use Rattle.centralized_telescope.specs.core.Elements.{lent_at_entry};
ghost use Rattle.harness_exports.specs.Exported.{buffers_at_entry, lent_at_exit};
ghost use Rattle.centralized_telescope.specs.core.Params.{settings_of};
ghost use Rattle.centralized_telescope.specs.later.Tickets.{blocks_in};
ghost use Rattle.centralized_telescope.specs.core.Prover.{proved_by};
ghost use Rattle.centralized_telescope.specs.later.ProofSize.{size_by};
ghost use Rattle.harness_exports.specs.Exported.{exported_hash, six, exported_small_case, exported_distinct};
ghost use Rattle.harness_exports.specs.Exported.{with_numbers, counters_of, with_counters, exported_prove};
ghost use Rattle.harness_exports.specs.Exported.{with_first, exported_write_ticket};
ghost use Rattle.harness_exports.specs.Exported.{exported_read_ticket, exported_plan};
ghost use Rattle.harness_exports.specs.Exported.{ExportedSize, exported_prove_pool, exported_pool_size};
ghost use Rattle.harness_exports.specs.Exported.{exported_pool_data, exported_prepare, exported_commit, parties_numbers};
ghost use Rattle.harness_exports.specs.Exported.{exported_two_products, exported_count_chains};

use centralized_telescope::{
    Buffers, Lent, Party, Refusal, RetryCounter, Search, SearchCounter, Shared, SmallSettings,
    TwoAnswers, proof_search_number, refusal_number, settings_of,
};

// SHA-256 of four strings joined into 32 lent bytes: 0 with the digest, 9 with zeros, or 8 with nothing written where `out`
// isn't 32 bytes.
pub fn alba_sha256(a: &[u8], b: &[u8], c: &[u8], d: &[u8], out: &mut [u8]) -> u32
    ensures { (result, out.new)
        ≡ exported_hash (a.now ++ (b.now ++ (c.now ++ d.now))) out.old }
{
    if out.len() != 32 {
        return 8;
    }
    let (number, digest) = match sampling::sha256::sha256(a, b, c, d) {
        Ok(digest) => (0, digest),
        Err(refused) => (u32::from(refused), [0u8; 32]),
    };
    out.copy_from_slice(&digest);
    number
}

// Settings as six numbers.
fn put_settings(s: SmallSettings, out: &mut [u64])
    requires { length out.old ≡ 6 }
    ensures { out.new ≡ six s }
{
    out.copy_from_slice(&[
        s.proof_size,
        s.max_retries,
        s.search_width,
        s.dfs_bound,
        s.x.hi,
        s.x.lo,
    ]);
}

// The small case's settings into six lent numbers, proof_size, max_retries, search_width, dfs_bound and the halves of X, the high one
// first: 0, or 30 or 31, or 8 where `out` isn't six numbers; nothing is written then.
pub fn alba_small_case(u: u64, c: f64, out: &mut [u64]) -> u32
    ensures { (result, out.new) ≡ exported_small_case u c out.old }
{
    if out.len() != 6 {
        return 8;
    }
    match centralized_telescope::param_small_case(u, c) {
        Ok(settings) => {
            put_settings(settings, out);
            0
        }
        Err(k) => refusal_number(k),
    }
}

// Whether no two elements of a lent list are the same, in data, mark and, where it is 1, index: 0 for yes, 1 for no, or the list's
// refusal, 4 or 5.
pub fn alba_check_distinct(data: &[u8], ends: &[u32], marks: &[u8], indexes: &[u64]) -> u32
    ensures { result ≡ exported_distinct (lent_at_entry «data» ends marks indexes) }
{
    let list = Lent {
        data,
        ends,
        marks,
        indexes,
    };
    match centralized_telescope::check_distinct(list) {
        Ok(distinct) => u32::from(!distinct),
        Err(k) => refusal_number(k),
    }
}

// Numbers into the first lent ones, if there are as many.
#[tactic(auto, using(crate::proofs::Answer::numbers_put, crate::proofs::Answer::numbers_left))]
fn put<const N: usize>(numbers: [u64; N], out: &mut [u64])
    ensures { out.new ≡ with_numbers numbers.entry out.old }
{
    if N <= out.len() {
        out[..N].copy_from_slice(&numbers);
    }
}

// R, S and the step count of the prover's answer, 0 for each that it has not.
fn counters_of(answer: Result<Search, Refusal>) -> [u64; 3]
    ensures { result ≡ counters_of (proved_by answer [] []) }
{
    match answer {
        Ok(Search::Found(retry, search, count)) => [retry.0, search.0, count],
        Ok(Search::NotFoundInBounds(count)) | Ok(Search::NotFound(count)) => [0, 0, count],
        Err(_) => [0, 0, 0],
    }
}

// The number of the prover's answer, with R, S and the step count in the first three lent numbers, if there are as many.
fn put_search(answer: Result<Search, Refusal>, out: &mut [u64]) -> u32
    ensures number { result ≡ (proved_by answer [] []).number }
    ensures put { out.new ≡ with_counters (proved_by answer [] []) out.old }
{
    put(counters_of(answer), out);
    proof_search_number(answer)
}

// The prover: 0 or the number. X is passed as its high word, then its low. `out` takes R, S and the step count where it has three numbers
// or more.
#[tactic(auto, using(crate::proofs::ProverNumbers::exported_so), unfolding(crate::specs::Exported::exported_prove))]
pub fn alba_prove(
    set_size: u64,
    proof_size: u64,
    max_retries: u64,
    search_width: u64,
    dfs_bound: u64,
    x_high: u64,
    x_low: u64,
    data: &[u8],
    ends: &[u32],
    marks: &[u8],
    indexes: &[u64],
    places: &mut [u32],
    table: &mut [u32],
    out: &mut [u64],
) -> u32
    ensures { (result, places.new, table.new, out.new)
        ≡ exported_prove (settings_of set_size proof_size max_retries search_width dfs_bound x_high x_low)
        (lent_at_entry «data» ends marks indexes) places.old table.old out.old }
{
    let p = settings_of(
        set_size,
        proof_size,
        max_retries,
        search_width,
        dfs_bound,
        x_high,
        x_low,
    );
    let list = Lent {
        data,
        ends,
        marks,
        indexes,
    };
    let answer = centralized_telescope::prove(p, list, places, table);
    put_search(answer, out)
}

// The prover over the pool of two lists, as `alba_prove`.
#[tactic(auto, using(crate::proofs::ProverNumbers::exported_so), unfolding(crate::specs::Exported::exported_prove_pool))]
pub fn alba_prove_pool<'a>(
    set_size: u64,
    proof_size: u64,
    max_retries: u64,
    search_width: u64,
    dfs_bound: u64,
    x_high: u64,
    x_low: u64,
    data: &'a [u8],
    ends: &[u32],
    marks: &[u8],
    indexes: &[u64],
    data2: &'a [u8],
    ends2: &[u32],
    marks2: &[u8],
    indexes2: &[u64],
    places: &mut [u32],
    table: &mut [u32],
    out: &mut [u64],
) -> u32
    ensures { (result, places.new, table.new, out.new)
        ≡ exported_prove_pool (settings_of set_size proof_size max_retries search_width dfs_bound x_high x_low)
        (lent_at_entry «data» ends marks indexes) (lent_at_entry data2 ends2 marks2 indexes2) places.old table.old
        out.old }
{
    let p = settings_of(
        set_size,
        proof_size,
        max_retries,
        search_width,
        dfs_bound,
        x_high,
        x_low,
    );
    let list = Lent {
        data,
        ends,
        marks,
        indexes,
    };
    let list2 = Lent {
        data: data2,
        ends: ends2,
        marks: marks2,
        indexes: indexes2,
    };
    let answer = centralized_telescope::prove_pool(p, list, list2, places, table);
    put_search(answer, out)
}

// The number of an answer that is a size, with the size, 0 with a refusal, in the first lent number, if there is one.
fn put_size(answer: Result<u64, Refusal>, out: &mut [u64]) -> u32
    ensures number { result ≡ (size_by answer).0 }
    ensures put { out.new ≡ with_first (size_by answer).1 out.old }
{
    match answer {
        Ok(size) => {
            put([size], out);
            0
        }
        Err(k) => {
            put([0], out);
            refusal_number(k)
        }
    }
}

// The writer of tickets: 0 or the number. `out` takes the number of blocks, 0 with a refusal, where it has a number or more.
pub fn alba_write_ticket(
    retry: u64,
    search: u64,
    data: &[u8],
    ends: &[u32],
    marks: &[u8],
    indexes: &[u64],
    ticket: &mut [u8],
    out: &mut [u64],
) -> u32
    ensures { (result, «ticket».new, out.new)
        ≡ exported_write_ticket retry search (lent_at_entry «data» ends marks indexes) «ticket».old out.old }
{
    let list = Lent {
        data,
        ends,
        marks,
        indexes,
    };
    let answer = centralized_telescope::write_ticket(
        RetryCounter(retry),
        SearchCounter(search),
        list,
        ticket,
    );
    put_size(answer.map(|blocks| blocks as u64), out)
}

// The reader of tickets: 0 or the number. `out` takes R, S, the number of elements and that of data bytes, zeros with a refusal, where it
// has four numbers or more.
pub fn alba_read_ticket(
    ticket: &[u8],
    data: &mut [u8],
    ends: &mut [u32],
    marks: &mut [u8],
    indexes: &mut [u64],
    out: &mut [u64],
) -> u32
    ensures { (result, lent_at_exit «data» ends marks indexes, out.new)
        ≡ exported_read_ticket «ticket».now (buffers_at_entry «data» ends marks indexes) out.old }
{
    let mut buffers = Buffers {
        data,
        ends,
        marks,
        indexes,
    };
    match centralized_telescope::read_ticket(ticket, &mut buffers) {
        Ok(proof) => {
            put(
                [
                    proof.retry.0,
                    proof.search.0,
                    proof.elements as u64,
                    proof.bytes as u64,
                ],
                out,
            );
            0
        }
        Err(k) => {
            put([0, 0, 0, 0], out);
            refusal_number(k)
        }
    }
}

// The number of blocks that a ticket states; 0 where there isn't one block whole.
pub fn alba_stated_blocks(ticket: &[u8]) -> u64
    ensures { result ≡ blocks_in (bodies_of «ticket».now) }
{
    centralized_telescope::stated_blocks(ticket)
}

// Planning: 0 or the number. `out` takes places, bin-table numbers, steps and blocks, zeros with a refusal, where it has four numbers or
// more.
#[tactic(auto, using(crate::proofs::PlanAnswers::exported_planned))]
pub fn alba_plan(
    set_size: u64,
    proof_size: u64,
    max_retries: u64,
    search_width: u64,
    dfs_bound: u64,
    x_high: u64,
    x_low: u64,
    longest: u64,
    out: &mut [u64],
) -> u32
    ensures { (result, out.new)
        ≡ exported_plan (settings_of set_size proof_size max_retries search_width dfs_bound x_high x_low) longest
        out.old }
{
    let p = settings_of(
        set_size,
        proof_size,
        max_retries,
        search_width,
        dfs_bound,
        x_high,
        x_low,
    );
    match centralized_telescope::plan(p, longest) {
        Ok(amounts) => {
            put(
                [
                    amounts.places,
                    amounts.bin_table,
                    amounts.most_steps,
                    amounts.ticket_blocks,
                ],
                out,
            );
            0
        }
        Err(k) => {
            put([0, 0, 0, 0], out);
            refusal_number(k)
        }
    }
}

// The proof size of security figures: 0 or the number. `out` takes the size, 0 with a refusal, where it has a number or more.
pub fn alba_proof_size(s: u64, c: u64, n: u64, f: u64, out: &mut [u64]) -> u32
    ensures { ExportedSize s c n f out.old result out.new }
{
    put_size(centralized_telescope::proof_size(s, c, n, f), out)
}

// The size of the pool of two lists: 0 or the number. `out` takes the size, 0 with a refusal, where it has a number or more.
pub fn alba_pool_size(
    data: &[u8],
    ends: &[u32],
    marks: &[u8],
    indexes: &[u64],
    data2: &[u8],
    ends2: &[u32],
    marks2: &[u8],
    indexes2: &[u64],
    out: &mut [u64],
) -> u32
    ensures { (result, out.new)
        ≡ exported_pool_size (lent_at_entry «data» ends marks indexes) (lent_at_entry data2 ends2 marks2 indexes2) out.old }
{
    let list = Lent {
        data,
        ends,
        marks,
        indexes,
    };
    let list2 = Lent {
        data: data2,
        ends: ends2,
        marks: marks2,
        indexes: indexes2,
    };
    let answer = centralized_telescope::pool_size(list, list2);
    put_size(answer.map(|size| size as u64), out)
}

// The data of the element at a place of the pool: 0 with that part in the first lent bytes and its length in the first lent number, if
// there is one; or 42 with nothing written where the part is longer than what is lent.
pub fn alba_pool_data<'a>(
    data: &'a [u8],
    ends: &[u32],
    marks: &[u8],
    indexes: &[u64],
    data2: &'a [u8],
    ends2: &[u32],
    marks2: &[u8],
    indexes2: &[u64],
    place: u64,
    part: &mut [u8],
    out: &mut [u64],
) -> u32
    ensures { (result, part.new, out.new)
        ≡ exported_pool_data (lent_at_entry «data» ends marks indexes) (lent_at_entry data2 ends2 marks2 indexes2) place part.old
        out.old }
{
    let list = Lent {
        data,
        ends,
        marks,
        indexes,
    };
    let list2 = Lent {
        data: data2,
        ends: ends2,
        marks: marks2,
        indexes: indexes2,
    };
    let own = centralized_telescope::pool_data(list, list2, place as usize);
    if part.len() < own.len() {
        return 42;
    }
    part[..own.len()].copy_from_slice(own);
    put([own.len() as u64], out);
    0
}

// The prover's checks, and the digest of what it would search: 0 with the digest in the lent bytes, or the number with nothing written; 8
// before all else where `out` isn't 32 bytes.
pub fn alba_prepare(
    set_size: u64,
    proof_size: u64,
    max_retries: u64,
    search_width: u64,
    dfs_bound: u64,
    x_high: u64,
    x_low: u64,
    data: &[u8],
    ends: &[u32],
    marks: &[u8],
    indexes: &[u64],
    places: &[u32],
    table: &[u32],
    out: &mut [u8],
) -> u32
    ensures { (result, out.new)
        ≡ exported_prepare (settings_of set_size proof_size max_retries search_width dfs_bound x_high x_low)
        (lent_at_entry «data» ends marks indexes) (length places.now) (length table.now) out.old }
{
    if out.len() != 32 {
        return 8;
    }
    let p = settings_of(
        set_size,
        proof_size,
        max_retries,
        search_width,
        dfs_bound,
        x_high,
        x_low,
    );
    let list = Lent {
        data,
        ends,
        marks,
        indexes,
    };
    match centralized_telescope::prepare(p, list, places, table) {
        Ok(digest) => {
            out.copy_from_slice(&digest);
            0
        }
        Err(k) => refusal_number(k),
    }
}

// The prover where the digest is that of what it is handed, as `alba_prove`; 8 before all else, with nothing written, where the digest
// isn't 32 bytes.
pub fn alba_commit(
    set_size: u64,
    proof_size: u64,
    max_retries: u64,
    search_width: u64,
    dfs_bound: u64,
    x_high: u64,
    x_low: u64,
    digest: &[u8],
    data: &[u8],
    ends: &[u32],
    marks: &[u8],
    indexes: &[u64],
    places: &mut [u32],
    table: &mut [u32],
    out: &mut [u64],
) -> u32
    ensures { (result, places.new, table.new, out.new)
        ≡ exported_commit (settings_of set_size proof_size max_retries search_width dfs_bound x_high x_low)
        digest.now (lent_at_entry «data» ends marks indexes) places.old table.old out.old }
{
    if digest.len() != 32 {
        return 8;
    }
    let mut prepared = [0u8; 32];
    prepared.copy_from_slice(digest);
    let p = settings_of(
        set_size,
        proof_size,
        max_retries,
        search_width,
        dfs_bound,
        x_high,
        x_low,
    );
    let list = Lent {
        data,
        ends,
        marks,
        indexes,
    };
    let answer = centralized_telescope::commit(p, prepared, list, places, table);
    put_search(answer, out)
}

// Both parties' answers into six lent numbers: the number, S and the step count of the first, then of the second.
fn put_parties(answers: TwoAnswers, out: &mut [u64])
    requires { length out.old ≡ 6 }
    ensures { out.new ≡ parties_numbers (proved_by answers.first [] []) (proved_by answers.second [] []) }
{
    let [_, search, count] = counters_of(answers.first);
    let [_, search2, count2] = counters_of(answers.second);
    out.copy_from_slice(&[
        u64::from(proof_search_number(answers.first)),
        search,
        count,
        u64::from(proof_search_number(answers.second)),
        search2,
        count2,
    ]);
}

// Two parties served from one bin table: 0, with their answers as `put_parties` has them in `out`; 8 with nothing done or written where
// `out` isn't six numbers.
pub fn alba_two_products(
    table: &[u32],
    table_retry: u64,
    data: &[u8],
    ends: &[u32],
    marks: &[u8],
    indexes: &[u64],
    set_size: u64,
    proof_size: u64,
    max_retries: u64,
    search_width: u64,
    dfs_bound: u64,
    x_high: u64,
    x_low: u64,
    retry: u64,
    set_size2: u64,
    proof_size2: u64,
    max_retries2: u64,
    search_width2: u64,
    dfs_bound2: u64,
    x_high2: u64,
    x_low2: u64,
    retry2: u64,
    places: &mut [u32],
    places2: &mut [u32],
    out: &mut [u64],
) -> u32
    ensures { (result, places.new, places2.new, out.new)
        ≡ exported_two_products (lent_at_entry «data» ends marks indexes) table_retry table.now
        (settings_of set_size proof_size max_retries search_width dfs_bound x_high x_low) retry places.old
        (settings_of set_size2 proof_size2 max_retries2 search_width2 dfs_bound2 x_high2 x_low2) retry2
        places2.old out.old }
{
    if out.len() != 6 {
        return 8;
    }
    let p = settings_of(
        set_size,
        proof_size,
        max_retries,
        search_width,
        dfs_bound,
        x_high,
        x_low,
    );
    let p2 = settings_of(
        set_size2,
        proof_size2,
        max_retries2,
        search_width2,
        dfs_bound2,
        x_high2,
        x_low2,
    );
    let shared = Shared {
        list: Lent {
            data,
            ends,
            marks,
            indexes,
        },
        retry: RetryCounter(table_retry),
        table,
    };
    let first = Party {
        settings: p,
        retry: RetryCounter(retry),
    };
    let second = Party {
        settings: p2,
        retry: RetryCounter(retry2),
    };
    put_parties(
        centralized_telescope::two_products(shared, first, second, places, places2),
        out,
    );
    0
}

// The chains of one retry counter and one search counter by their length: 0 with the counts in the first proof_size + 1 lent ones and the
// number that pass in `out`, or the number with a 0 there; 8 with nothing done or written where `out` isn't one number. The bin table is
// the try's with 0 and with 50.
pub fn alba_count_chains(
    set_size: u64,
    proof_size: u64,
    max_retries: u64,
    search_width: u64,
    dfs_bound: u64,
    x_high: u64,
    x_low: u64,
    retry: u64,
    search: u64,
    data: &[u8],
    ends: &[u32],
    marks: &[u8],
    indexes: &[u64],
    bins: &mut [u32],
    counts: &mut [u64],
    out: &mut [u64],
) -> u32
    ensures { (result, bins.new, counts.new, out.new)
        ≡ exported_count_chains (settings_of set_size proof_size max_retries search_width dfs_bound x_high x_low) retry search
        (lent_at_entry «data» ends marks indexes) bins.old counts.old out.old }
{
    if out.len() != 1 {
        return 8;
    }
    let p = settings_of(
        set_size,
        proof_size,
        max_retries,
        search_width,
        dfs_bound,
        x_high,
        x_low,
    );
    let list = Lent {
        data,
        ends,
        marks,
        indexes,
    };
    let answer = centralized_telescope::count_chains(
        p,
        RetryCounter(retry),
        SearchCounter(search),
        list,
        bins,
        counts,
    );
    put_size(answer, out)
}
