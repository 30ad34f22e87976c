// What the harness compares, as a library for C: each export is the call of `harness_exports` of its name, and promises what that promises.
#![tactic(auto)]

ghost use Rattle.std.specs.Prelude.{◌≡◌, ◌++◌, length};
ghost use Rattle.centralized_telescope.specs.later.Blocks.{bodies_of};
ghost use Rattle.centralized_telescope.specs.core.Elements.{lent_at_entry};
ghost use Rattle.harness_exports.specs.Exported.{buffers_at_entry, lent_at_exit};
ghost use Rattle.centralized_telescope.specs.core.Params.{settings_of};
ghost use Rattle.centralized_telescope.specs.later.Tickets.{blocks_in};
ghost use Rattle.harness_exports.specs.Exported.{exported_hash, six, exported_small_case, exported_distinct};
ghost use Rattle.harness_exports.specs.Exported.{exported_prove, exported_write_ticket};
ghost use Rattle.harness_exports.specs.Exported.{exported_read_ticket, exported_plan};
ghost use Rattle.harness_exports.specs.Exported.{ExportedSize, exported_prove_pool, exported_pool_size};
ghost use Rattle.harness_exports.specs.Exported.{exported_pool_data, exported_prepare, exported_commit};
ghost use Rattle.harness_exports.specs.Exported.{exported_two_products, exported_count_chains};

// SHA-256 of four strings joined into 32 lent bytes: 0 with the digest, 9 with zeros, or 8 with nothing written where `out`
// isn't 32 bytes.
#[unsafe(no_mangle)]
pub extern "C" fn alba_sha256(a: &[u8], b: &[u8], c: &[u8], d: &[u8], out: &mut [u8]) -> u32
    ensures { (result, out.new)
        ≡ exported_hash (a.now ++ (b.now ++ (c.now ++ d.now))) out.old }
{
    harness_exports::alba_sha256(a, b, c, d, out)
}

// The small case's settings into six lent numbers, proof_size, max_retries, search_width, dfs_bound and the halves of X, the high one
// first: 0, or 30 or 31, or 8 where `out` isn't six numbers; nothing is written then.
#[unsafe(no_mangle)]
pub extern "C" fn alba_small_case(u: u64, c: f64, out: &mut [u64]) -> u32
    ensures { (result, out.new) ≡ exported_small_case u c out.old }
{
    harness_exports::alba_small_case(u, c, out)
}

// Whether no two elements of a lent list are the same, in data, mark and, where it is 1, index: 0 for yes, 1 for no, or the list's
// refusal, 4 or 5.
#[unsafe(no_mangle)]
pub extern "C" fn alba_check_distinct(
    data: &[u8],
    ends: &[u32],
    marks: &[u8],
    indexes: &[u64],
) -> u32
    ensures { result ≡ exported_distinct (lent_at_entry «data» ends marks indexes) }
{
    harness_exports::alba_check_distinct(data, ends, marks, indexes)
}

// The prover: 0 or the number. X is passed as its high word, then its low. `out` takes R, S and the step count where it has three numbers
// or more.
#[unsafe(no_mangle)]
pub extern "C" fn alba_prove(
    set_size: u64,
    proof_size: u64,
    max_retries: u64,
    search_width: u64,
    dfs_bound: u64,
    x_high: u64,
    x_low: u64,
    data: &[u8],
    ends: &[u32],
    marks: &[u8],
    indexes: &[u64],
    places: &mut [u32],
    table: &mut [u32],
    out: &mut [u64],
) -> u32
    ensures { (result, places.new, table.new, out.new)
        ≡ exported_prove (settings_of set_size proof_size max_retries search_width dfs_bound x_high x_low)
        (lent_at_entry «data» ends marks indexes) places.old table.old out.old }
{
    harness_exports::alba_prove(
        set_size,
        proof_size,
        max_retries,
        search_width,
        dfs_bound,
        x_high,
        x_low,
        data,
        ends,
        marks,
        indexes,
        places,
        table,
        out,
    )
}

// The prover over the pool of two lists, as `alba_prove`.
#[unsafe(no_mangle)]
pub extern "C" fn alba_prove_pool<'a>(
    set_size: u64,
    proof_size: u64,
    max_retries: u64,
    search_width: u64,
    dfs_bound: u64,
    x_high: u64,
    x_low: u64,
    data: &'a [u8],
    ends: &[u32],
    marks: &[u8],
    indexes: &[u64],
    data2: &'a [u8],
    ends2: &[u32],
    marks2: &[u8],
    indexes2: &[u64],
    places: &mut [u32],
    table: &mut [u32],
    out: &mut [u64],
) -> u32
    ensures { (result, places.new, table.new, out.new)
        ≡ exported_prove_pool (settings_of set_size proof_size max_retries search_width dfs_bound x_high x_low)
        (lent_at_entry «data» ends marks indexes) (lent_at_entry data2 ends2 marks2 indexes2) places.old table.old
        out.old }
{
    harness_exports::alba_prove_pool(
        set_size,
        proof_size,
        max_retries,
        search_width,
        dfs_bound,
        x_high,
        x_low,
        data,
        ends,
        marks,
        indexes,
        data2,
        ends2,
        marks2,
        indexes2,
        places,
        table,
        out,
    )
}

// The writer of tickets: 0 or the number. `out` takes the number of blocks, 0 with a refusal, where it has a number or more.
#[unsafe(no_mangle)]
pub extern "C" fn alba_write_ticket(
    retry: u64,
    search: u64,
    data: &[u8],
    ends: &[u32],
    marks: &[u8],
    indexes: &[u64],
    ticket: &mut [u8],
    out: &mut [u64],
) -> u32
    ensures { (result, «ticket».new, out.new)
        ≡ exported_write_ticket retry search (lent_at_entry «data» ends marks indexes) «ticket».old out.old }
{
    harness_exports::alba_write_ticket(retry, search, data, ends, marks, indexes, ticket, out)
}

// The reader of tickets: 0 or the number. `out` takes R, S, the number of elements and that of data bytes, zeros with a refusal, where it
// has four numbers or more.
#[unsafe(no_mangle)]
pub extern "C" fn alba_read_ticket(
    ticket: &[u8],
    data: &mut [u8],
    ends: &mut [u32],
    marks: &mut [u8],
    indexes: &mut [u64],
    out: &mut [u64],
) -> u32
    ensures { (result, lent_at_exit «data» ends marks indexes, out.new)
        ≡ exported_read_ticket «ticket».now (buffers_at_entry «data» ends marks indexes) out.old }
{
    harness_exports::alba_read_ticket(ticket, data, ends, marks, indexes, out)
}

// The number of blocks that a ticket states; 0 where there isn't one block whole.
#[unsafe(no_mangle)]
pub extern "C" fn alba_stated_blocks(ticket: &[u8]) -> u64
    ensures { result ≡ blocks_in (bodies_of «ticket».now) }
{
    harness_exports::alba_stated_blocks(ticket)
}

// Planning: 0 or the number. `out` takes places, bin-table numbers, steps and blocks, zeros with a refusal, where it has four numbers or
// more.
#[unsafe(no_mangle)]
pub extern "C" fn alba_plan(
    set_size: u64,
    proof_size: u64,
    max_retries: u64,
    search_width: u64,
    dfs_bound: u64,
    x_high: u64,
    x_low: u64,
    longest: u64,
    out: &mut [u64],
) -> u32
    ensures { (result, out.new)
        ≡ exported_plan (settings_of set_size proof_size max_retries search_width dfs_bound x_high x_low) longest
        out.old }
{
    harness_exports::alba_plan(
        set_size,
        proof_size,
        max_retries,
        search_width,
        dfs_bound,
        x_high,
        x_low,
        longest,
        out,
    )
}

// The proof size of security figures: 0 or the number. `out` takes the size, 0 with a refusal, where it has a number or more.
#[unsafe(no_mangle)]
pub extern "C" fn alba_proof_size(s: u64, c: u64, n: u64, f: u64, out: &mut [u64]) -> u32
    ensures { ExportedSize s c n f out.old result out.new }
{
    harness_exports::alba_proof_size(s, c, n, f, out)
}

// The size of the pool of two lists: 0 or the number. `out` takes the size, 0 with a refusal, where it has a number or more.
#[unsafe(no_mangle)]
pub extern "C" fn alba_pool_size(
    data: &[u8],
    ends: &[u32],
    marks: &[u8],
    indexes: &[u64],
    data2: &[u8],
    ends2: &[u32],
    marks2: &[u8],
    indexes2: &[u64],
    out: &mut [u64],
) -> u32
    ensures { (result, out.new)
        ≡ exported_pool_size (lent_at_entry «data» ends marks indexes) (lent_at_entry data2 ends2 marks2 indexes2) out.old }
{
    harness_exports::alba_pool_size(
        data, ends, marks, indexes, data2, ends2, marks2, indexes2, out,
    )
}

// The data of the element at a place of the pool: 0 with that part in the first lent bytes and its length in the first lent number, if
// there is one; or 42 with nothing written where the part is longer than what is lent.
#[unsafe(no_mangle)]
pub extern "C" fn alba_pool_data<'a>(
    data: &'a [u8],
    ends: &[u32],
    marks: &[u8],
    indexes: &[u64],
    data2: &'a [u8],
    ends2: &[u32],
    marks2: &[u8],
    indexes2: &[u64],
    place: u64,
    part: &mut [u8],
    out: &mut [u64],
) -> u32
    ensures { (result, part.new, out.new)
        ≡ exported_pool_data (lent_at_entry «data» ends marks indexes) (lent_at_entry data2 ends2 marks2 indexes2) place part.old
        out.old }
{
    harness_exports::alba_pool_data(
        data, ends, marks, indexes, data2, ends2, marks2, indexes2, place, part, out,
    )
}

// The prover's checks, and the digest of what it would search: 0 with the digest in the lent bytes, or the number with nothing written; 8
// before all else where `out` isn't 32 bytes.
#[unsafe(no_mangle)]
pub extern "C" fn alba_prepare(
    set_size: u64,
    proof_size: u64,
    max_retries: u64,
    search_width: u64,
    dfs_bound: u64,
    x_high: u64,
    x_low: u64,
    data: &[u8],
    ends: &[u32],
    marks: &[u8],
    indexes: &[u64],
    places: &[u32],
    table: &[u32],
    out: &mut [u8],
) -> u32
    ensures { (result, out.new)
        ≡ exported_prepare (settings_of set_size proof_size max_retries search_width dfs_bound x_high x_low)
        (lent_at_entry «data» ends marks indexes) (length places.now) (length table.now) out.old }
{
    harness_exports::alba_prepare(
        set_size,
        proof_size,
        max_retries,
        search_width,
        dfs_bound,
        x_high,
        x_low,
        data,
        ends,
        marks,
        indexes,
        places,
        table,
        out,
    )
}

// The prover where the digest is that of what it is handed, as `alba_prove`; 8 before all else, with nothing written, where the digest
// isn't 32 bytes.
#[unsafe(no_mangle)]
pub extern "C" fn alba_commit(
    set_size: u64,
    proof_size: u64,
    max_retries: u64,
    search_width: u64,
    dfs_bound: u64,
    x_high: u64,
    x_low: u64,
    digest: &[u8],
    data: &[u8],
    ends: &[u32],
    marks: &[u8],
    indexes: &[u64],
    places: &mut [u32],
    table: &mut [u32],
    out: &mut [u64],
) -> u32
    ensures { (result, places.new, table.new, out.new)
        ≡ exported_commit (settings_of set_size proof_size max_retries search_width dfs_bound x_high x_low)
        digest.now (lent_at_entry «data» ends marks indexes) places.old table.old out.old }
{
    harness_exports::alba_commit(
        set_size,
        proof_size,
        max_retries,
        search_width,
        dfs_bound,
        x_high,
        x_low,
        digest,
        data,
        ends,
        marks,
        indexes,
        places,
        table,
        out,
    )
}

// Two parties served from one bin table: 0, with their answers as `put_parties` has them in `out`; 8 with nothing done or written where
// `out` isn't six numbers.
#[unsafe(no_mangle)]
pub extern "C" fn alba_two_products(
    table: &[u32],
    table_retry: u64,
    data: &[u8],
    ends: &[u32],
    marks: &[u8],
    indexes: &[u64],
    set_size: u64,
    proof_size: u64,
    max_retries: u64,
    search_width: u64,
    dfs_bound: u64,
    x_high: u64,
    x_low: u64,
    retry: u64,
    set_size2: u64,
    proof_size2: u64,
    max_retries2: u64,
    search_width2: u64,
    dfs_bound2: u64,
    x_high2: u64,
    x_low2: u64,
    retry2: u64,
    places: &mut [u32],
    places2: &mut [u32],
    out: &mut [u64],
) -> u32
    ensures { (result, places.new, places2.new, out.new)
        ≡ exported_two_products (lent_at_entry «data» ends marks indexes) table_retry table.now
        (settings_of set_size proof_size max_retries search_width dfs_bound x_high x_low) retry places.old
        (settings_of set_size2 proof_size2 max_retries2 search_width2 dfs_bound2 x_high2 x_low2) retry2
        places2.old out.old }
{
    harness_exports::alba_two_products(
        table,
        table_retry,
        data,
        ends,
        marks,
        indexes,
        set_size,
        proof_size,
        max_retries,
        search_width,
        dfs_bound,
        x_high,
        x_low,
        retry,
        set_size2,
        proof_size2,
        max_retries2,
        search_width2,
        dfs_bound2,
        x_high2,
        x_low2,
        retry2,
        places,
        places2,
        out,
    )
}

// The chains of one retry counter and one search counter by their length: 0 with the counts in the first proof_size + 1 lent ones and the
// number that pass in `out`, or the number with a 0 there; 8 with nothing done or written where `out` isn't one number. The bin table is
// the try's with 0 and with 50.
#[unsafe(no_mangle)]
pub extern "C" fn alba_count_chains(
    set_size: u64,
    proof_size: u64,
    max_retries: u64,
    search_width: u64,
    dfs_bound: u64,
    x_high: u64,
    x_low: u64,
    retry: u64,
    search: u64,
    data: &[u8],
    ends: &[u32],
    marks: &[u8],
    indexes: &[u64],
    bins: &mut [u32],
    counts: &mut [u64],
    out: &mut [u64],
) -> u32
    ensures { (result, bins.new, counts.new, out.new)
        ≡ exported_count_chains (settings_of set_size proof_size max_retries search_width dfs_bound x_high x_low) retry search
        (lent_at_entry «data» ends marks indexes) bins.old counts.old out.old }
{
    harness_exports::alba_count_chains(
        set_size,
        proof_size,
        max_retries,
        search_width,
        dfs_bound,
        x_high,
        x_low,
        retry,
        search,
        data,
        ends,
        marks,
        indexes,
        bins,
        counts,
        out,
    )
}
