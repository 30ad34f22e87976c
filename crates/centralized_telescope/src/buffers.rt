// Four buffers that a list of elements is written into, in the form in which lists are lent.
// Room for data, and of each element for its end, its mark and its index.
#[derive(Drop)]
pub struct Buffers<'a> {
    pub data: &'a mut [u8],
    pub ends: &'a mut [u32],
    pub marks: &'a mut [u8],
    pub indexes: &'a mut [u64],
}

impl<'a> Buffers<'a> {
    ghost use Rattle.std.specs.Prelude.{◌≡◌, ◌^◌, ◌<◌, length};
    ghost use Rattle.centralized_telescope.specs.inner.Held.{option_of};
    ghost use Rattle.centralized_telescope.specs.later.ProofList.{buffers_short};
    ghost use Rattle.centralized_telescope.specs.inner.BuffersHeld.{with_element};
    ghost use Rattle.centralized_telescope.specs.later.Buffers.{buffers_held, SameBuffers};

    // Whether one of them has no room for so many elements with so many data bytes in all.
    #[tactic(auto, unfolding(crate::specs::later::ProofList::buffers_short))]
    pub(crate) fn is_short(&self, count: usize, size: usize) -> bool
        ensures { result ≡ buffers_short count size (buffers_held self.now) }
    {
        self.ends.len() < count
            || self.marks.len() < count
            || self.indexes.len() < count
            || self.data.len() < size
    }

    // Writes the end, the mark and the index of the element at a place.
    pub(crate) fn put(&mut self, place: usize, end: usize, index: Option<u64>)
        requires { (place < length self.old.ends.now) × (place < length self.old.marks.now)
            × (place < length self.old.indexes.now) × (end < 2 ^ 32) }
        ensures same_buffers { SameBuffers self.old self.new }
        ensures put { buffers_held self.new ≡ with_element place end (option_of index) (buffers_held self.old) }
    {
        self.ends[place] = end as u32;
        self.marks[place] = u8::from(index.is_some());
        self.indexes[place] = index.unwrap_or(0);
    }
}
