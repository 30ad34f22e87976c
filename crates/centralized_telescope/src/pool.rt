// Two lists pooled: the first, then each element of the second that equals none of the first.
ghost use Rattle.std.specs.Prelude.{◌≡◌, ◌+◌, ◌<◌, ◌≤◌, length};
ghost use Rattle.centralized_telescope.specs.core.Lists.{some_of};
ghost use Rattle.centralized_telescope.specs.core.Elements.{elements, max_elements};
ghost use Rattle.centralized_telescope.specs.core.LentLists.{lent};
ghost use Rattle.centralized_telescope.specs.inner.Held.{held};
ghost use Rattle.centralized_telescope.specs.core.Prover.{proved_by};
ghost use Rattle.centralized_telescope.specs.later.Distinct.{same_element};
ghost use Rattle.centralized_telescope.specs.later.Pool.{pool_size, pool_size_by, pool_data, proved_pool};
ghost use Rattle.centralized_telescope.specs.inner.Sorting.{element_in, Sorted};
ghost use Rattle.centralized_telescope.specs.inner.Pooling.{AddedBy, PoolOf};

use crate::errors::Refusal;
use crate::lists::{AcceptedList, Lent};
use crate::numbers::room;
use crate::params::{Params, lawful};
use crate::search::{Search, prove_routine};
use crate::sort::{compare, key_of, sort_places};
use crate::source::Source;
use crate::telescope::check_room;
use crate::types::{MAX_ELEMENTS, accept};
use std::cmp::Ordering;

// ---- Which of the second list's places are added

// Whether the element at a place of the second list equals one of the first, whose keys are lent sorted. What is left of them is halved
// each time. A loop of our own: the library's search looks at log n keys even if the first that it meets is the one, and the pool of a list
// with few elements of another, or with one everywhere, would take so many times longer.
fn stands_in(list: AcceptedList, keys: &[u64], list2: AcceptedList, place: usize) -> bool
    requires { Sorted (element_in list) (length list.ends.now) keys.now × (place < length list2.ends.now) }
    ensures { result ≡ some_of (same_element (element_in list2.entry place)) (elements (held list.entry)) }
{
    let key = key_of(list2, place);
    let mut low = 0;
    let mut high = keys.len();
    while low < high {
        let middle = low + (high - low) / 2;
        match compare(&list, keys[middle], &list2, key) {
            Ordering::Less => {
                low = middle + 1;
            }
            Ordering::Greater => {
                high = middle;
            }
            Ordering::Equal => {
                return true;
            }
        }
    }
    false
}

// Writes the places that are added, ascending: how many, or none where the pool has over 65,536 elements. The count is the answer too,
// which `enumerate` would keep to itself.
fn list_added(
    list: AcceptedList,
    keys: &[u64],
    list2: AcceptedList,
    added: &mut [u16],
) -> Option<usize>
    requires { Sorted (element_in list) (length list.ends.now) keys.now × (max_elements ≡ length added.old) }
    ensures { AddedBy (held list.entry) (held list2.entry) result added.new }
{
    let most = MAX_ELEMENTS - list.len();
    let mut count = 0;
    for place in 0..list2.len() {
        if !stands_in(list, keys, list2, place) {
            if most <= count {
                return None;
            }
            added[count] = place as u16;
            count += 1;
        }
    }
    Some(count)
}

// The same of two accepted lists. The keys are given back with this call.
fn find_added(list: AcceptedList, list2: AcceptedList, added: &mut [u16]) -> Option<usize>
    requires { (max_elements ≡ length added.old) }
    ensures { AddedBy (held list.entry) (held list2.entry) result added.new }
{
    let mut room = room::<u64, MAX_ELEMENTS>(0);
    let keys = &mut room[..list.len()];
    sort_places(list, keys);
    list_added(list, keys, list2, added)
}

// ---- The pool's size

// The pool of two lists, with its places written out into lent numbers.
fn pool_of<'d, 'a>(
    list: Lent<'d, 'a>,
    list2: Lent<'d, 'a>,
    added: &'a mut [u16],
) -> Result<Source<'d, 'a>, Refusal>
    requires { max_elements ≡ length added.old }
    ensures { PoolOf (lent list.entry) (lent list2.entry) result }
{
    let first = accept(list)?;
    let second = accept(list2)?;
    let count = find_added(first, second, added).ok_or(Refusal::PoolTooLarge)?;
    Ok(Source {
        first,
        second,
        added: &added[..count],
    })
}

// How many elements the pool of two lists has: the first list, then each element of the second that equals none of the first.
pub fn pool_size(list: Lent, list2: Lent) -> Result<usize, Refusal>
    ensures { pool_size_by result ≡ pool_size (lent list.entry) (lent list2.entry) }
{
    let mut added = room::<u16, MAX_ELEMENTS>(0);
    Ok(pool_of(list, list2, &mut added)?.len())
}

// ---- The element at a place of the pool

// That part of the one list's data or the other's which holds the data of the element at a place of the pool. Past the pool, and where the
// lists or the pool are refused, an empty part of the first. While it is lent, the ends, marks and indexes may be altered.
pub fn pool_data<'d>(list: Lent<'d, '_>, list2: Lent<'d, '_>, place: usize) -> &'d [u8]
    ensures { result.now ≡ pool_data (lent list.entry) (lent list2.entry) place }
{
    let mut added = room::<u16, MAX_ELEMENTS>(0);
    let Ok(pool) = pool_of(list, list2, &mut added) else {
        return &list.data[..0];
    };
    if pool.len() <= place {
        return &list.data[..0];
    }
    pool.element(place).data
}

// ---- The prover over the pool

// As `prove`, over the pool of two lists: its places are the pool's.
pub fn prove_pool(
    p: Params,
    list: Lent,
    list2: Lent,
    places: &mut [u32],
    table: &mut [u32],
) -> Result<Search, Refusal>
    ensures { proved_by result places.new table.new
        ≡ proved_pool p (lent list.entry) (lent list2.entry) places.old table.old }
{
    let settings = lawful(p)?;
    let mut added = room::<u16, MAX_ELEMENTS>(0);
    let pool = pool_of(list, list2, &mut added)?;
    check_room(settings, pool.len(), places.len(), table.len())?;
    Ok(prove_routine(settings, &pool, places, table))
}
