// A list of elements as C lends it, and the same list once it is accepted.
ghost use Rattle.std.specs.Prelude.{◌≡◌};
ghost use Rattle.centralized_telescope.specs.core.Elements.{lent_of, list_check};
ghost use Rattle.centralized_telescope.specs.core.Exports.{numbered};

// The data of all elements, one behind the other; and of each its end there in 4 bytes, its mark, and its index in 8 bytes, the highest
// byte first.
#[derive(Clone, Copy)]
pub struct LentBytes<'a> {
    pub data: &'a [u8],
    pub ends: &'a [u8],
    pub marks: &'a [u8],
    pub indexes: &'a [u8],
}

// A list in bytes that is neither malformed nor too large: whoever is handed one need not ask again.
#[derive(Clone, Copy)]
pub struct AcceptedBytes<'a> {
    pub lent: LentBytes<'a>,
    ghost accepted: { list_check (numbered (lent_of lent.«data».now lent.ends.now lent.marks.now lent.indexes.now)) ≡ 0 },
}
