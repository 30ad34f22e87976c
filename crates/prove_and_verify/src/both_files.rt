// Two lists in one room, the second's elements right behind the first's: where in it the pool's elements stand. This is asked when a proof
// is found and has to be written out, so none of its room is held while the search runs.
//
// It isn't proved here that the places are right. The verifier judges the elements that are written.
use centralized_telescope::Lent;
use proof_files::{FullRoom, elements};

// How many elements and data bytes the first list has, and how many elements both have together.
#[derive(Clone, Copy)]
pub struct Sizes {
    pub first: usize,
    pub bytes: usize,
    pub both: usize,
}

impl Sizes {
    pub fn of(list: Lent, second: Lent) -> Sizes {
        let first = list.ends.len();
        Sizes {
            first,
            bytes: list.data.len(),
            both: first.saturating_add(second.ends.len()),
        }
    }
}

// A place as it is stored; there is none past 4,294,967,295.
fn stored(place: usize) -> u32 {
    u32::try_from(place).unwrap_or(u32::MAX)
}

// Both lists as one. The second's ends count from its own data; from now on they count from the first's. A sum that is no u32 is no end of
// a list in this room.
pub fn join(room: &mut FullRoom, sizes: Sizes) -> Lent<'_, '_> {
    let more = stored(sizes.bytes);
    for end in room.ends.iter_mut().skip(sizes.first) {
        *end = end.saturating_add(more);
    }
    room.lent(sizes.both, room.data.len())
}

// The first list's places, chained by their elements' keys: `heads` has the last place of each key and `links` the one before each place,
// as the place and 1, or 0 for none. Behind those of the first list's places the links hold the places that the pool adds to these. With
// both it is no more than the bin table, which is given back before. No map: it may fail for want of memory, and a proof that was found
// must be written. No Option in place of the 0: it has eight bytes for four, and the chains would need more than the bin table.
#[derive(Drop)]
struct Chains {
    heads: [u32; 32768],
    links: [u32; 65536],
}

// The number at a place; 0 past the last.
fn number_at(xs: &[u32], i: usize) -> usize {
    xs.get(i).copied().unwrap_or(0) as usize
}

impl Chains {
    // Of the first n places of a list.
    fn of(list: Lent, n: usize) -> Chains {
        let mut heads = [0; 32768];
        let mut links = [0; 65536];
        for (place, link) in links.iter_mut().take(n).enumerate() {
            let key = elements::key_at(list, place) as usize;
            *link = heads[key];
            heads[key] = stored(place.saturating_add(1));
        }
        Chains { heads, links }
    }

    // The places that the pool adds to the first list's, in their order, into the links behind those of the first list's places.
    fn list_added(&mut self, list: Lent, first: usize) {
        let heads = &self.heads;
        let (links, added) = self.links.split_at_mut(first.min(65536));
        let both = first..list.ends.len();
        let places = both.filter(|place| !is_chained(heads, links, list, *place));
        for (own, place) in added.iter_mut().zip(places) {
            *own = stored(place);
        }
    }
}

// Whether a place of the first list has the element of this place. A chain has no more places than there are links, which bounds the turns:
// each goes to where a link says, and that is no step of a range.
fn is_chained(heads: &[u32; 32768], links: &[u32], list: Lent, place: usize) -> bool {
    let mut at = heads[elements::key_at(list, place) as usize] as usize;
    for _ in 0..links.len() {
        if at == 0 {
            return false;
        }
        if elements::are_same(list, at - 1, place) {
            return true;
        }
        at = number_at(links, at - 1);
    }
    false
}

// Places of the pool, made places of both lists, of which the first has so many elements.
pub fn find(places: &mut [u32], list: Lent, first: usize) {
    let mut chains = Chains::of(list, first);
    chains.list_added(list, first);
    for place in places {
        let at = *place as usize;
        if first <= at {
            *place = stored(number_at(&chains.links, at));
        }
    }
}
