// Elements as bytes, as a ticket has them: the mark, the index if the mark is 1, the data length, then the data.
ghost use Rattle.std.specs.Prelude.{◌≡◌, ◌+◌, ◌*◌, ◌≤◌, ◌++◌, length, take};
ghost use Rattle.sampling.specs.core.BigEndian.{bytes_of};
ghost use Rattle.centralized_telescope.specs.core.Lists.{over};
ghost use Rattle.centralized_telescope.specs.core.Elements.{elements, max_data_bytes};
ghost use Rattle.centralized_telescope.specs.inner.Held.{held, element_read, option_of};
ghost use Rattle.centralized_telescope.specs.later.ElementBytes.{element_bytes, elements_bytes, max_head_bytes};
ghost use Rattle.centralized_telescope.specs.inner.Gathering.{Put, mark_bytes};

use crate::lists::{AcceptedList, Element};
use crate::numbers::copy_at;
use sampling::write_number;

// What stands before an element's data is so many bytes at most: mark, index and data length.
pub const MAX_HEAD_BYTES: usize = 13;

// Writes a number in `size` bytes to the offset `at` of a buffer that has room for them: the offset behind them.
fn put_number(v: u64, size: usize, at: usize, out: &mut [u8]) -> usize
    requires { at + size ≤ length out.old }
    ensures { Put (bytes_of size v) at out.old out.new result }
{
    let end = at + size;
    write_number(v, &mut out[at..end]);
    end
}

// Writes the mark of an element and its index, if it has one, to the offset `at` of a buffer that has room for them: the offset behind them.
fn put_index(index: Option<u64>, at: usize, out: &mut [u8]) -> usize
    requires { at + length (mark_bytes (option_of index)) ≤ length out.old }
    ensures { Put (mark_bytes (option_of index)) at out.old out.new result }
{
    match index {
        None => put_number(0, 1, at, out),
        Some(number) => {
            let behind = put_number(1, 1, at, out);
            put_number(number, 8, behind, out)
        }
    }
}

// Writes an element to the offset `from` of a buffer that has room for it: the offset behind it.
#[tactic(auto, using(crate::proofs::ElementWriting::parts_room, sampling::specs::laws::BigEndianLaws::length_bytes_of))]
pub fn put_element(element: Element, from: usize, out: &mut [u8]) -> usize
    requires { from + length (element_bytes (element_read element)) ≤ length out.old }
    ensures { Put (element_bytes (element_read element.entry)) from out.old out.new result }
{
    let own = element.data;
    let size = put_index(element.index, from, out);
    let data = put_number(own.len() as u64, 4, size, out);
    copy_at(own, data, out);
    data + own.len()
}

// How many bytes an element takes.
fn element_size(element: Element) -> usize
    ensures { result ≡ length (element_bytes (element_read element.entry)) }
{
    let head = match element.index {
        None => 5,
        Some(_) => MAX_HEAD_BYTES,
    };
    head + element.data.len()
}

// How many bytes the elements of an accepted list take.
pub fn elements_size(list: AcceptedList) -> usize
    ensures { (result ≡ length (elements_bytes (elements (held list.entry))))
        × (result ≤ (max_head_bytes + max_data_bytes) * length list.entry.ends.now) }
{
    // `map` and `sum` were tried: the sum's bound stays open
    let mut size: usize = 0;
    for i in 0..list.len() {
        size += element_size(list.element(i));
    }
    size
}

// Writes the elements of an accepted list to the offset `from` of a buffer that has room for them. The places are counted: a list is
// four slices, over which there is no iterator.
pub fn write_elements_bytes(list: AcceptedList, from: usize, out: &mut [u8])
    requires { from + length (elements_bytes (elements (held list))) ≤ length out.old }
    ensures { out.new ≡ over (take from out.old ++ elements_bytes (elements (held list.entry))) out.old }
{
    let mut used = from;
    for i in 0..list.len() {
        used = put_element(list.element(i), used, out);
    }
}
