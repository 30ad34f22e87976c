// Checks of a run before hours are spent on it: `prepare` gives a digest of what would be searched, and `commit` searches where the digest
// is the same.
ghost use Rattle.std.specs.Prelude.{◌≡◌, ◌≤◌, length};
ghost use Rattle.sampling.specs.core.BigEndian.{bytes_of};
ghost use Rattle.sampling.specs.later.Hasher.{new_hasher, absorbed};
ghost use Rattle.centralized_telescope.specs.core.Elements.{elements, max_elements};
ghost use Rattle.centralized_telescope.specs.core.LentLists.{lent};
ghost use Rattle.centralized_telescope.specs.inner.Held.{held};
ghost use Rattle.centralized_telescope.specs.core.Prover.{proved_by};
ghost use Rattle.centralized_telescope.specs.later.Prepare.{run_head, run_bytes, run_digest, prepared, prepared_by, committed};

use crate::element_bytes::{MAX_HEAD_BYTES, put_element};
use crate::errors::Refusal;
use crate::lists::{AcceptedList, Lent};
use crate::numbers::room;
use crate::params::Params;
use crate::run::Run;
use crate::search::Search;
use crate::telescope::{check_run, prove};
use sampling::eight_bytes;
use sampling::sha256::Hasher;

// A number more, in 8 bytes.
fn absorb_number(h: Hasher, v: u64) -> Hasher
    ensures { result ≡ absorbed h (bytes_of 8 v) }
{
    let bytes = eight_bytes(v);
    h.absorb(&bytes)
}

// A hasher that has absorbed the settings and the number of elements.
fn absorb_head(p: Params, count: usize) -> Hasher
    requires { count ≤ max_elements }
    ensures { result ≡ absorbed new_hasher (run_head p count) }
{
    let size = absorb_number(Hasher::new(), p.set_size);
    let proof = absorb_number(size, p.proof_size);
    let retries = absorb_number(proof, p.max_retries);
    let width = absorb_number(retries, p.search_width);
    let bound = absorb_number(width, p.dfs_bound);
    let elements = absorb_number(bound, count as u64);
    let high = absorb_number(elements, p.x.hi);
    absorb_number(high, p.x.lo)
}

// At most so many bytes are gathered before they are absorbed. One element takes 4,109 at most, and many short ones are absorbed at once.
// An array and no Vec: the library has no heap (docs/DECISIONS.md, House), and a call that can't run out of memory could then.
const ROOM: usize = 8192;

// A hasher that has absorbed all that a run stands for. Elements are gathered before they are absorbed, as many as there is room for.
fn absorb_run(run: Run) -> Hasher
    ensures { result ≡ absorbed new_hasher (run_bytes run.entry.settings.params (elements (held run.entry.list))) }
{
    let list = run.list;
    let mut hasher = absorb_head(run.settings.params, list.len());
    let mut gathered = room::<u8, ROOM>(0);
    let mut used = 0;
    for place in 0..list.len() {
        let element = list.element(place);
        if ROOM - used < MAX_HEAD_BYTES + element.data.len() {
            hasher = hasher.absorb(&gathered[..used]);
            used = 0;
        }
        used = put_element(element, used, &mut gathered);
    }
    hasher.absorb(&gathered[..used])
}

// The digest of a run.
fn run_digest(run: Run) -> [u8; 32]
    ensures { result ≡ run_digest run.entry.settings.params (elements (held run.entry.list)) }
{
    absorb_run(run).finish().unwrap()
}

// The prover's checks, and the digest of what it would search. Of places and bin table only the lengths are looked at.
pub fn prepare(p: Params, list: Lent, places: &[u32], table: &[u32]) -> Result<[u8; 32], Refusal>
    ensures { prepared_by result ≡ prepared p (lent list.entry) (length places.now) (length table.now) }
{
    Ok(run_digest(check_run(p, list, places.len(), table.len())?))
}

// Searches as `prove` does, where the digest is that of what it is handed. Otherwise 46, behind the prover's checks, with nothing altered.
pub fn commit(
    p: Params,
    digest: [u8; 32],
    list: Lent,
    places: &mut [u32],
    table: &mut [u32],
) -> Result<Search, Refusal>
    ensures { proved_by result places.new table.new ≡ committed p digest (lent list.entry) places.old table.old }
{
    let run = check_run(p, list, places.len(), table.len())?;
    if digest != run_digest(run) {
        return Err(Refusal::RunChanged);
    }
    prove(p, list, places, table)
}
