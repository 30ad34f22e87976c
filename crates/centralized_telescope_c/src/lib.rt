// The verifier as a library for C: the export is the call of `centralized_telescope` of its name, and promises what that promises.
#![tactic(auto)]

ghost use Rattle.std.specs.Prelude.{◌≡◌};
ghost use Rattle.centralized_telescope.specs.core.Elements.{lent_at_entry};
ghost use Rattle.centralized_telescope.specs.core.Params.{settings_of};
ghost use Rattle.centralized_telescope.specs.core.Exports.{exported_verdict};

// 0: the proof is accepted; else the number of the first refusal that it meets. Ends take 4 bytes each and indexes 8, the highest
// byte first. X is passed as its high word, then its low.
#[unsafe(no_mangle)]
pub extern "C" fn alba_verify(
    set_size: u64,
    proof_size: u64,
    max_retries: u64,
    search_width: u64,
    dfs_bound: u64,
    x_high: u64,
    x_low: u64,
    retry_counter: u64,
    search_counter: u64,
    data: &[u8],
    ends: &[u8],
    marks: &[u8],
    indexes: &[u8],
) -> u32
    ensures { result ≡ exported_verdict (settings_of set_size proof_size max_retries search_width dfs_bound x_high x_low)
        retry_counter search_counter (lent_at_entry «data» ends marks indexes) }
{
    centralized_telescope::alba_verify(
        set_size,
        proof_size,
        max_retries,
        search_width,
        dfs_bound,
        x_high,
        x_low,
        retry_counter,
        search_counter,
        data,
        ends,
        marks,
        indexes,
    )
}
