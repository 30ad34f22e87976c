// A lent list: whether it is accepted, and what is read of one place of it. All that is known of a lent list elsewhere comes from here.
ghost use Rattle.std.specs.Prelude.{◌≡◌, ℕ, List, ◌<◌, ◌≤◌, IfOk, length, slice_index};
ghost use Rattle.centralized_telescope.specs.core.Refusals.{answer_number};
ghost use Rattle.centralized_telescope.specs.core.Elements.{mark_over, end_wrong, data_long, list_check};
ghost use Rattle.centralized_telescope.specs.core.Elements.{elements, element_at, index_of, max_data_bytes};
ghost use Rattle.centralized_telescope.specs.core.LentLists.{lent};
ghost use Rattle.centralized_telescope.specs.inner.Held.{held, element_read, option_of};
ghost use Rattle.centralized_telescope.specs.inner.ListReading.{found_number, start_at};

use crate::errors::Refusal;
use crate::lists::{AcceptedList, Element, Lent};
use crate::numbers::wide;

// An element's data has so many bytes at most, and a list so many elements.
pub const MAX_DATA_BYTES: usize = 4096;

pub const MAX_ELEMENTS: usize = 65536;

// Whether a mark is neither 0 nor 1.
pub fn some_mark_over(marks: &[u8]) -> bool
    ensures { result ≡ mark_over marks.now }
{
    marks.iter().any(|mark| 1 < *mark)
}

// What is found in the ends of a list. Two answers, and no Result: a list may have both faults, and what `list_answer` asks of it stands
// between the two.
#[derive(Clone, Copy)]
pub struct EndsFound {
    // one is before the one before it, or past the data
    pub wrong: bool,
    // an element has over 4,096 data bytes
    pub long: bool,
}

// The faults of so many ends, each of which `end_at` gives by its place. Once both are found nothing more is read: how many there are isn't
// bounded yet.
pub fn find_in_ends<F: Fn(usize) -> usize>(count: usize, end_at: F, limit: usize) -> EndsFound
    ghost ends: { List ℕ }
    requires whole { length ends ≡ count }
    requires callable { (i : ℕ) → i < count → F.pre end_at i }
    requires given { (i end : ℕ) → i < count → F.post end_at i end → end ≡ slice_index ends i }
    ensures wrong { result.wrong ≡ end_wrong 0 limit ends }
    ensures long { result.long ≡ data_long 0 ends }
{
    let mut from = 0;
    let mut wrong = false;
    let mut long = false;
    for i in 0..count {
        if wrong && long {
            return EndsFound { wrong, long };
        }
        let end = end_at(i);
        wrong |= end < from || limit < end;
        long |= MAX_DATA_BYTES < end.saturating_sub(from);
        from = end;
    }
    EndsFound { wrong, long }
}

// The answer by what is found in a list, lengths and faults. Any fault that is number 4, anywhere in the list, comes before any that is 5.
pub fn list_answer(
    ends: usize,
    marks: usize,
    indexes: usize,
    mark_over: bool,
    found: EndsFound,
) -> Result<(), Refusal>
    ensures { answer_number result ≡ found_number ends marks indexes mark_over found.wrong found.long }
{
    if ends != marks || ends != indexes || mark_over || found.wrong {
        return Err(Refusal::Malformed);
    }
    if MAX_ELEMENTS < ends || found.long {
        return Err(Refusal::TooLarge);
    }
    Ok(())
}

// Whether a lent list is accepted.
pub fn check_list(list: Lent) -> Result<(), Refusal>
    ensures { answer_number result ≡ list_check (lent list.entry) }
{
    let ends = list.ends;
    list_answer(
        ends.len(),
        list.marks.len(),
        list.indexes.len(),
        some_mark_over(list.marks),
        find_in_ends(ends.len(), |i| wide(ends[i]), list.data.len()),
    )
}

// The list itself, where it is accepted.
pub fn accept<'d, 'a>(list: Lent<'d, 'a>) -> Result<AcceptedList<'d, 'a>, Refusal>
    ensures number { answer_number result ≡ list_check (lent list.entry) }
    ensures same { IfOk result (λ accepted. held accepted ≡ lent list.entry) }
{
    check_list(list)?;
    Ok(AcceptedList {
        data: list.data,
        ends: list.ends,
        marks: list.marks,
        indexes: list.indexes,
    })
}

// ---- One place of an accepted list. The rest of the crate reads data, ends, marks and indexes by these alone, but for the export, whose
// ends and indexes are bytes.

// Where the data of the element at a place starts: at the end before it, which `end_at` gives by its place.
pub fn start_of<F: Fn(usize) -> usize>(place: usize, end_at: F) -> usize
    ghost ends: { List ℕ }
    requires inside { place < length ends }
    requires callable { (i : ℕ) → i < length ends → F.pre end_at i }
    requires given { (i end : ℕ) → i < length ends → F.post end_at i end → end ≡ slice_index ends i }
    ensures { result ≡ start_at ends place }
{
    if place == 0 {
        return 0;
    }
    end_at(place - 1)
}

// The index of an element whose mark says whether it has one. Without one the number isn't looked at.
pub fn index_of(mark: u8, number: u64) -> Option<u64>
    ensures { option_of result ≡ index_of mark number }
{
    if mark == 1 { Some(number) } else { None }
}

impl<'d, 'a> AcceptedList<'d, 'a> {
    // How many elements it has.
    pub fn len(self) -> usize
        ensures { result ≡ length self.entry.ends.now }
    {
        self.ends.len()
    }

    // The own data of the element at a place: a part of the lent data.
    pub fn own_data(self, place: usize) -> &'d [u8]
        requires { place < length self.ends.now }
        ensures data { result.now ≡ (element_at (elements (held self.entry)) place).bytes }
        ensures short { length result.now ≤ max_data_bytes }
    {
        let start = start_of(place, |i| wide(self.ends[i]));
        let end = wide(self.ends[place]);
        &self.data[start..end]
    }

    // The index of the element at a place. None of its data is looked for.
    pub fn own_index(self, place: usize) -> Option<u64>
        requires { place < length self.ends.now }
        ensures { option_of result ≡ (element_at (elements (held self.entry)) place).index }
    {
        index_of(self.marks[place], self.indexes[place])
    }

    // The element at a place.
    pub fn element(self, place: usize) -> Element<'d>
        requires { place < length self.ends.now }
        ensures { element_read result ≡ element_at (elements (held self.entry)) place }
    {
        Element {
            data: self.own_data(place),
            index: self.own_index(place),
        }
    }
}
