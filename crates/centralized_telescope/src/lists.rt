// A list of elements as it is lent for reading, the same list once it is accepted, and an element of one.
ghost use Rattle.std.specs.Prelude.{◌≡◌, ◌≤◌, length};
ghost use Rattle.centralized_telescope.specs.core.Elements.{lent_of, list_check, max_data_bytes};

// The data of all elements, one behind the other; and of each its end there, its mark and its index. The data have a lifetime of their own:
// a part of them may be handed back, and is lent longer than the rest.
#[derive(Clone, Copy)]
pub struct Lent<'d, 'a> {
    pub data: &'d [u8],
    pub ends: &'a [u32],
    pub marks: &'a [u8],
    pub indexes: &'a [u64],
}

// A lent list that is neither malformed nor too large: whoever is handed one need not ask again.
#[derive(Clone, Copy)]
pub struct AcceptedList<'d, 'a> {
    pub data: &'d [u8],
    pub ends: &'a [u32],
    pub marks: &'a [u8],
    pub indexes: &'a [u64],
    ghost accepted: { list_check (lent_of «data».now ends.now marks.now indexes.now) ≡ 0 },
}

// An element of an accepted list: its own data, and its index if it has one.
#[derive(Clone, Copy)]
pub struct Element<'d> {
    pub index: Option<u64>,
    pub data: &'d [u8],
    ghost short: { length «data».now ≤ max_data_bytes },
}
