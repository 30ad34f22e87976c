// A prover's proof as a list of its own, in the form in which lists are lent. The Rust clones the elements; here their places are
// written out into lent buffers.
ghost use Rattle.std.specs.Prelude.{◌≡◌, ◌≤◌, false, length};
ghost use Rattle.centralized_telescope.specs.core.Elements.{max_elements};
ghost use Rattle.centralized_telescope.specs.core.LentLists.{lent};
ghost use Rattle.centralized_telescope.specs.inner.Held.{held};
ghost use Rattle.centralized_telescope.specs.later.ProofList.{place_out, joined_data, chosen, list_over, buffers_short, proof_list};
ghost use Rattle.centralized_telescope.specs.later.ProofList.{proof_list_by, with_buffers};
ghost use Rattle.centralized_telescope.specs.later.Buffers.{buffers_held, SameBuffers};

use crate::buffers::Buffers;
use crate::errors::Refusal;
use crate::lists::{AcceptedList, Lent};
use crate::numbers::{copy_at, wide};
use crate::types::{MAX_ELEMENTS, accept};

// Whether a place is past a list of `len` elements.
fn some_place_out(places: &[u32], len: usize) -> bool
    ensures { result ≡ place_out len places.now }
{
    places.iter().any(|place| len <= *place as usize)
}

// How many data bytes the elements at the places have.
fn data_size(places: &[u32], list: AcceptedList) -> usize
    requires { (length places.now ≤ max_elements) × (place_out (length list.ends.now) places.now ≡ false) }
    ensures { result ≡ length (joined_data (chosen places.now (held list.entry))) }
{
    // `map` and `sum` were tried: what each call of the closure asks stays open
    let mut size: usize = 0;
    for place in places {
        size += list.element(wide(*place)).data.len();
    }
    size
}

// Writes the elements at the places into buffers that have room for them: how many data bytes they have.
fn write_elements(places: &[u32], list: AcceptedList, out: &mut Buffers) -> usize
    requires { (length places.now ≤ max_elements) × (place_out (length list.ends.now) places.now ≡ false)
        × (buffers_short (length places.now) (length (joined_data (chosen places.now (held list)))) (buffers_held out.old) ≡ false) }
    ensures same_buffers { SameBuffers out.old out.new }
    ensures written { with_buffers 0 result (buffers_held out.new) ≡ list_over (chosen places.now (held list.entry)) (buffers_held out.old) }
{
    let mut used: usize = 0;
    for (i, place) in places.iter().enumerate() {
        let element = list.element(wide(*place));
        copy_at(element.data, used, out.data);
        used += element.data.len();
        out.put(i, used, element.index);
    }
    used
}

// The elements at the places, written out as a list into the first numbers of the four lent buffers. What is written is accepted as a
// list, and its elements are those at the places: how many data bytes it has. A refusal leaves the buffers as they were.
pub fn write_proof(places: &[u32], list: Lent, out: &mut Buffers) -> Result<usize, Refusal>
    ensures same_buffers { SameBuffers out.old out.new }
    ensures written { proof_list_by result (buffers_held out.new) ≡ proof_list places.now (lent list.entry) (buffers_held out.old) }
{
    let accepted = accept(list)?;
    if some_place_out(places, accepted.len()) {
        return Err(Refusal::Malformed);
    }
    if MAX_ELEMENTS < places.len() {
        return Err(Refusal::TooLarge);
    }
    if out.is_short(places.len(), data_size(places, accepted)) {
        return Err(Refusal::BufferShort);
    }
    Ok(write_elements(places, accepted, out))
}
