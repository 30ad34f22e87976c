// A list of elements that grows in lent room, and room for one.
ghost use Rattle.std.specs.Prelude.{◌≡◌, ◌+◌, ◌<◌, ◌^◌, length, take, drop, slice_set, IfSome, OnOk, OnErr};
ghost use Rattle.proof_files.specs.Lists.{Within};

use crate::elements;
use crate::elements::LineFault;
use centralized_telescope::{Buffers, Lent};

// The first n, or all where there are fewer.
pub fn first<T>(xs: &[T], n: usize) -> &[T]
    ensures { result.now ≡ take n xs.now }
{
    &xs[..n.min(xs.len())]
}

// The list of the first n elements, or of all where there are fewer. Their data stand among the data of all.
pub fn first_elements<'d, 'a>(list: Lent<'d, 'a>, n: usize) -> Lent<'d, 'a>
    ensures data_part { result.«data».now ≡ list.entry.«data».now }
    ensures ends_part { result.ends.now ≡ take n list.entry.ends.now }
    ensures marks_part { result.marks.now ≡ take n list.entry.marks.now }
    ensures indexes_part { result.indexes.now ≡ take n list.entry.indexes.now }
{
    Lent {
        data: list.data,
        ends: first(list.ends, n),
        marks: first(list.marks, n),
        indexes: first(list.indexes, n),
    }
}

// Room for a list of so many data bytes and elements. No `Vec`: it may fail for want of memory, and the programs would then refuse what
// they take.
#[derive(Drop)]
pub struct ListRoom<const BYTES: usize, const ELEMENTS: usize> {
    pub data: [u8; BYTES],
    pub ends: [u32; ELEMENTS],
    pub marks: [u8; ELEMENTS],
    pub indexes: [u64; ELEMENTS],
}

impl<const BYTES: usize, const ELEMENTS: usize> ListRoom<BYTES, ELEMENTS> {
    ghost use Rattle.centralized_telescope.specs.core.Elements.{lent_of};
    ghost use Rattle.centralized_telescope.specs.later.Buffers.{buffers_held};
    ghost use Rattle.proof_files.specs.Rooms.{room_held};

    pub fn new() -> ListRoom<BYTES, ELEMENTS>
        ensures data_len { length result.«data» ≡ BYTES }
        ensures len { (length result.ends ≡ ELEMENTS) × (length result.marks ≡ ELEMENTS) × (length result.indexes ≡ ELEMENTS) }
    {
        ListRoom {
            data: [0; BYTES],
            ends: [0; ELEMENTS],
            marks: [0; ELEMENTS],
            indexes: [0; ELEMENTS],
        }
    }

    // All of it, to be written into.
    pub fn buffers(&mut self) -> Buffers<'_>
        ensures { buffers_held result ≡ lent_of self.old.«data» self.old.ends self.old.marks self.old.indexes }
    {
        Buffers {
            data: &mut self.data,
            ends: &mut self.ends,
            marks: &mut self.marks,
            indexes: &mut self.indexes,
        }
    }

    // An empty list in this room.
    pub fn list(&mut self) -> ElementList<'_>
        ensures empty { (result.elements ≡ 0) × (result.bytes ≡ 0) }
        ensures room { room_held result ≡ lent_of self.old.«data» self.old.ends self.old.marks self.old.indexes }
    {
        ElementList::new(self.buffers())
    }

    // The list of the first elements and data bytes, so many, or all where there are fewer.
    pub fn lent(&self, elements: usize, bytes: usize) -> Lent<'_, '_>
        ensures data_part { result.«data».now ≡ take bytes self.now.«data» }
        ensures ends_part { result.ends.now ≡ take elements self.now.ends }
        ensures marks_part { result.marks.now ≡ take elements self.now.marks }
        ensures indexes_part { result.indexes.now ≡ take elements self.now.indexes }
    {
        Lent {
            data: first(&self.data, bytes),
            ends: first(&self.ends, elements),
            marks: first(&self.marks, elements),
            indexes: first(&self.indexes, elements),
        }
    }
}

// Room for the most elements and data bytes that the programs read.
pub type FullRoom = ListRoom<1048576, 65536>;

// A list of elements in lent room: its elements and data bytes stand at the start of each slice. The slices are not held as the library's
// `Buffers`, since Rattle's borrow check doesn't cover lending a part of one out of a struct within this one.
#[derive(Drop)]
pub struct ElementList<'a> {
    data: &'a mut [u8],
    ends: &'a mut [u32],
    marks: &'a mut [u8],
    indexes: &'a mut [u64],
    elements: usize,
    bytes: usize,
    ghost within: { Within elements bytes «data».now ends.now marks.now indexes.now },
    ghost fits_an_end: { bytes < 2 ^ 32 },
}

impl<'a> ElementList<'a> {
    ghost use Rattle.centralized_telescope.specs.core.Elements.{lent_of};
    ghost use Rattle.proof_files.specs.Rooms.{IsIn, SameRoom, room_held};

    // An empty list, in this room.
    pub fn new(room: Buffers<'a>) -> ElementList<'a>
        ensures empty { (result.elements ≡ 0) × (result.bytes ≡ 0) }
        ensures room { IsIn room.entry result }
    {
        let Buffers {
            data,
            ends,
            marks,
            indexes,
        } = room;
        ElementList {
            data,
            ends,
            marks,
            indexes,
            elements: 0,
            bytes: 0,
        }
    }

    // The list of so many elements and data bytes, which stand in this room already. None where the room hasn't so many places, or an end
    // can't say so many data bytes.
    pub fn with_elements(
        room: Buffers<'a>,
        elements: usize,
        bytes: usize,
    ) -> Option<ElementList<'a>>
        ensures counts { IfSome result (λ list. (list.elements ≡ elements) × (list.bytes ≡ bytes)) }
        ensures room { IfSome result (IsIn room.entry) }
    {
        let Buffers {
            data,
            ends,
            marks,
            indexes,
        } = room;
        let places = ends.len().min(marks.len()).min(indexes.len());
        if places < elements || data.len() < bytes || (u32::MAX as usize) < bytes {
            return None;
        }
        Some(ElementList {
            data,
            ends,
            marks,
            indexes,
            elements,
            bytes,
        })
    }

    // The list is empty again.
    pub fn clear(&mut self)
        ensures empty { (self.new.elements ≡ 0) × (self.new.bytes ≡ 0) }
        ensures same_room { SameRoom self.old self.new }
    {
        self.elements = 0;
        self.bytes = 0;
    }

    // How many elements the list has.
    pub fn len(&self) -> usize
        ensures { result ≡ self.now.elements }
    {
        self.elements
    }

    // The list as it is lent for reading.
    pub fn lent(&self) -> Lent<'_, '_>
        ensures data_part { result.«data».now ≡ take self.now.bytes self.now.«data».now }
        ensures ends_part { result.ends.now ≡ take self.now.elements self.now.ends.now }
        ensures marks_part { result.marks.now ≡ take self.now.elements self.now.marks.now }
        ensures indexes_part { result.indexes.now ≡ take self.now.elements self.now.indexes.now }
    {
        Lent {
            data: &self.data[..self.bytes],
            ends: &self.ends[..self.elements],
            marks: &self.marks[..self.elements],
            indexes: &self.indexes[..self.elements],
        }
    }

    // The list with the element of a line more. A line that is refused leaves it as it was.
    pub fn add_line(&mut self, line: &[u8]) -> Result<(), LineFault>
        ensures ok { OnOk result (self.new.elements ≡ self.old.elements + 1) }
        ensures end { OnOk result (self.new.ends.now ≡ slice_set self.old.ends.now self.old.elements self.new.bytes) }
        ensures same_room { SameRoom self.old self.new }
        ensures err { OnErr result ((self.new.elements ≡ self.old.elements) × (self.new.bytes ≡ self.old.bytes)) }
    {
        let index = elements::index_of(line)?;
        let places = self
            .ends
            .len()
            .min(self.marks.len())
            .min(self.indexes.len());
        if places <= self.elements {
            return Err(LineFault::TooMany);
        }
        // An end is a u32.
        let limit = self.data.len().min(u32::MAX as usize);
        let start = self.bytes;
        let end = start + elements::write_data(line, &mut self.data[start..limit])?;
        // As `Buffers::put` of the library, which asks that the place is there: so it is the library's own, and no call that users make.
        let place = self.elements;
        self.ends[place] = end as u32;
        self.marks[place] = u8::from(index.is_some());
        self.indexes[place] = index.unwrap_or(0);
        self.elements += 1;
        self.bytes = end;
        Ok(())
    }

    // The list as it is, and an empty one in the room behind it.
    pub fn split(self) -> (Lent<'a, 'a>, ElementList<'a>)
        ensures data_part { result.0.«data».now ≡ take self.entry.bytes self.entry.«data».now }
        ensures ends_part { result.0.ends.now ≡ take self.entry.elements self.entry.ends.now }
        ensures marks_part { result.0.marks.now ≡ take self.entry.elements self.entry.marks.now }
        ensures indexes_part { result.0.indexes.now ≡ take self.entry.elements self.entry.indexes.now }
        ensures behind { (result.1.elements ≡ 0) × (result.1.bytes ≡ 0) }
        ensures room { room_held result.1 ≡ lent_of (drop self.entry.bytes self.entry.«data».now)
            (drop self.entry.elements self.entry.ends.now) (drop self.entry.elements self.entry.marks.now)
            (drop self.entry.elements self.entry.indexes.now) }
    {
        let ElementList {
            data,
            ends,
            marks,
            indexes,
            elements,
            bytes,
        } = self;
        let (data, more_data) = data.split_at_mut(bytes);
        let (ends, more_ends) = ends.split_at_mut(elements);
        let (marks, more_marks) = marks.split_at_mut(elements);
        let (indexes, more_indexes) = indexes.split_at_mut(elements);
        let first = Lent {
            data,
            ends,
            marks,
            indexes,
        };
        (
            first,
            ElementList::new(Buffers {
                data: more_data,
                ends: more_ends,
                marks: more_marks,
                indexes: more_indexes,
            }),
        )
    }
}
