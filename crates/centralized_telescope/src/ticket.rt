// A proof as a ticket: the number of blocks, R, S and the elements in the joined bodies of blocks, and back.
ghost use Rattle.std.specs.Prelude.{◌≡◌, ◌+◌, ◌*◌, ◌/◌, ◌^◌, ◌<◌, ◌≤◌, true, false, ◌++◌, length, drop, nat_lt};
ghost use Rattle.sampling.specs.core.BigEndian.{big_endian, bytes_of};
ghost use Rattle.centralized_telescope.specs.core.LentLists.{lent};
ghost use Rattle.centralized_telescope.specs.inner.Held.{held};
ghost use Rattle.centralized_telescope.specs.later.Buffers.{buffers_held, SameBuffers};
ghost use Rattle.centralized_telescope.specs.core.Lists.{some_of, over};
ghost use Rattle.centralized_telescope.specs.core.Elements.{elements, max_elements};
ghost use Rattle.centralized_telescope.specs.later.ProofList.{list_over, buffers_short, with_buffers};
ghost use Rattle.centralized_telescope.specs.later.Blocks.{block_count, bodies_of, damaged, block_bytes, body_bytes};
ghost use Rattle.centralized_telescope.specs.later.ElementBytes.{elements_bytes};
ghost use Rattle.centralized_telescope.specs.later.Tickets.{content, blocks_in, elements_in, ticket_written, ticket_written_by};
ghost use Rattle.centralized_telescope.specs.later.Tickets.{ticket_read, ticket_read_by, elements_part, ticket_head_bytes};
ghost use Rattle.centralized_telescope.specs.inner.TicketReading.{HeadSays, LayoutSays, FoundSays, all_laid_out, data_size};
ghost use Rattle.centralized_telescope.specs.inner.TicketReading.{filling_right};

use crate::blocks::{BLOCK_BYTES, BODY_BYTES, MAX_FILLING, copy_from_bodies, is_damaged, seal};
use crate::buffers::Buffers;
use crate::element_bytes::{MAX_HEAD_BYTES, elements_size, write_elements_bytes};
use crate::errors::Refusal;
use crate::lists::{AcceptedList, Lent};
use crate::numbers::{copy_at, number};
use crate::proof::Proof;
use crate::round::{RetryCounter, SearchCounter};
use crate::types::{MAX_DATA_BYTES, MAX_ELEMENTS, accept, index_of};
use sampling::write_number;

// So many bytes stand before a ticket's elements: the number of blocks, R, S and the number of elements.
pub const HEAD_BYTES: usize = 24;

// What `read_ticket` reads: R, S, the number of elements and that of data bytes.
#[derive(Clone, Copy)]
pub struct TicketProof {
    pub retry: RetryCounter,
    pub search: SearchCounter,
    pub elements: usize,
    pub bytes: usize,
}

// ---- Writing

// What stands between the number of blocks and the elements: R, S and the number of elements.
fn content_head(retry: RetryCounter, search: SearchCounter, count: usize) -> [u8; 20]
    ensures { result ≡ bytes_of 8 retry.0 ++ (bytes_of 8 search.0 ++ bytes_of 4 count) }
{
    let mut head = [0u8; 20];
    write_number(retry.0, &mut head[..8]);
    write_number(search.0, &mut head[8..16]);
    write_number(count as u64, &mut head[16..]);
    head
}

// Writes the number of blocks, R, S, the number of elements and the elements of a proof over the first bytes of a buffer that has room for
// them.
fn write_content(count: usize, proof: Proof<AcceptedList>, out: &mut [u8])
    requires { (count ≡ block_count (ticket_head_bytes + length (elements_bytes (elements (held proof.list)))))
        × (length (content proof.retry.0 proof.search.0 (elements (held proof.list))) ≤ length out.old) }
    ensures { out.new ≡ over (content proof.entry.retry.0 proof.entry.search.0 (elements (held proof.entry.list))) out.old }
{
    let head = content_head(proof.retry, proof.search, proof.list.len());
    write_number(count as u64, &mut out[..4]);
    copy_at(&head, 4, out);
    write_elements_bytes(proof.list, HEAD_BYTES, out);
}

// Writes the ticket of R, S and a list of elements over the first bytes of a lent buffer. Data that belongs to no element and an index
// whose mark is 0 aren't carried. A refusal leaves the buffer as it was.
pub fn write_ticket(
    retry_counter: RetryCounter,
    search_counter: SearchCounter,
    list: Lent,
    ticket: &mut [u8],
) -> Result<usize, Refusal>
    ensures { ticket_written_by result «ticket».new
        ≡ ticket_written retry_counter.0 search_counter.0 (lent list.entry) «ticket».old }
{
    let accepted = accept(list)?;
    let size = HEAD_BYTES + elements_size(accepted);
    let count = (size + MAX_FILLING) / BODY_BYTES;
    if ticket.len() < BLOCK_BYTES * count {
        return Err(Refusal::BufferShort);
    }
    let proof = Proof {
        retry: retry_counter,
        search: search_counter,
        list: accepted,
    };
    write_content(count, proof, ticket);
    ticket[size..BODY_BYTES * count].fill(0);
    seal(ticket, count);
    Ok(count)
}

// ---- Reading. An offset is one into the joined bodies.

// What a ticket has of an element before its data: how many bytes that takes, and how many data bytes follow.
#[derive(Clone, Copy)]
pub struct HeadRead {
    pub index: Option<u64>,
    pub len: usize,
    pub size: usize,
}

// The layout of all elements: where they end and how many data bytes they have.
#[derive(Clone, Copy)]
pub struct Layout {
    pub end: usize,
    pub bytes: usize,
}

// What whole blocks with their checks hold: so many elements with so many data bytes in all.
#[derive(Clone, Copy)]
pub struct Found {
    pub elements: usize,
    pub bytes: usize,
}

// How many bytes the joined bodies are.
fn bodies_size(ticket: &[u8]) -> usize
    ensures { result ≡ body_bytes * (length ticket.now / block_bytes) }
{
    BODY_BYTES * (ticket.len() / BLOCK_BYTES)
}

// The number that k bytes make from an offset on.
#[tactic(auto, using(crate::proofs::TicketReading::field_copied))]
fn field(ticket: &[u8], at: usize, k: usize) -> u64
    requires { (at + k ≤ body_bytes * (length ticket.now / block_bytes)) × (k ≤ 8) }
    ensures { (result ≡ big_endian k (drop at (bodies_of ticket.now))) × (result < 256 ^ k) }
{
    let mut bytes = [0u8; 8];
    copy_from_bodies(ticket, at, k, 0, &mut bytes);
    number(&bytes, 0, k)
}

// How many blocks a ticket states that it has, in its first four bytes: as many as there are to fetch. 0 where there isn't one block whole:
// this call can't fail, and its clause, which the exported one has as well, says 0 there.
#[tactic(auto, using(crate::proofs::TicketReading::none_stated))]
pub fn stated_blocks(ticket: &[u8]) -> u64
    ensures { result ≡ blocks_in (bodies_of ticket.now) }
{
    if ticket.len() < BLOCK_BYTES {
        return 0;
    }
    field(ticket, 0, 4)
}

// The head of the element at an offset, if one is there that ends within the bodies and has no more data than an element may have.
fn head_at(ticket: &[u8], at: usize) -> Option<HeadRead>
    requires { at ≤ body_bytes * (length ticket.now / block_bytes) }
    ensures { HeadSays result (drop at (bodies_of ticket.now)) }
{
    let left = bodies_size(ticket) - at;
    if left < 5 {
        return None;
    }
    // at once, as far as the bodies go: a copy for each number takes longer
    let mut bytes = [0u8; MAX_HEAD_BYTES];
    copy_from_bodies(ticket, at, left.min(MAX_HEAD_BYTES), 0, &mut bytes);
    let mark = bytes[0];
    if 1 < mark {
        return None;
    }
    let len = 5 + 8 * mark as usize;
    if left < len {
        return None;
    }
    let size = number(&bytes, len - 4, 4) as usize;
    if MAX_DATA_BYTES < size || left < len + size {
        return None;
    }
    Some(HeadRead {
        index: index_of(mark, number(&bytes, 1, 8)),
        len,
        size,
    })
}

// The layout of so many elements from the offset 24 on, if they are there. Each says how far the next one is: no range has these steps.
fn layout_of(ticket: &[u8], count: usize) -> Option<Layout>
    requires { (ticket_head_bytes ≤ body_bytes * (length ticket.now / block_bytes)) × (count ≤ max_elements) }
    ensures { LayoutSays result count (bodies_of ticket.now) }
{
    let mut end: usize = HEAD_BYTES;
    let mut bytes: usize = 0;
    for _ in 0..count {
        let head = head_at(ticket, end)?;
        end += head.len + head.size;
        bytes += head.size;
    }
    Some(Layout { end, bytes })
}

// Whether a byte isn't 0.
fn some_over_zero(bytes: &[u8]) -> bool
    ensures { result ≡ some_of (nat_lt 0) bytes.now }
{
    bytes.iter().any(|byte| 0 < *byte)
}

// Whether all that follows the offset `end` is zeros, and less than a body.
fn is_filling_right(ticket: &[u8], end: usize) -> bool
    requires { end ≤ body_bytes * (length ticket.now / block_bytes) }
    ensures { result ≡ filling_right (drop end (bodies_of ticket.now)) }
{
    let len = bodies_size(ticket) - end;
    if MAX_FILLING < len {
        return false;
    }
    let mut rest = [0u8; BODY_BYTES];
    copy_from_bodies(ticket, end, len, 0, &mut rest);
    !some_over_zero(&rest[..len])
}

// What undamaged blocks hold, if it is a proof. Both numbers, of blocks and of elements, are looked at before any element: they may be anything.
fn find_elements(ticket: &[u8]) -> Option<Found>
    requires { damaged ticket.now ≡ false }
    ensures { FoundSays result ticket.now }
{
    if ticket.is_empty() || stated_blocks(ticket) != (ticket.len() / BLOCK_BYTES) as u64 {
        return None;
    }
    let elements = field(ticket, 20, 4) as usize;
    if MAX_ELEMENTS < elements {
        return None;
    }
    let layout = layout_of(ticket, elements)?;
    if !is_filling_right(ticket, layout.end) {
        return None;
    }
    Some(Found {
        elements,
        bytes: layout.bytes,
    })
}

// Writes so many elements from the offset 24 on into buffers that have room for them, and says how many data bytes that took. The steps are
// those of `layout_of`.
fn read_elements(ticket: &[u8], count: usize, out: &mut Buffers) -> usize
    requires { (ticket_head_bytes ≤ body_bytes * (length ticket.now / block_bytes)) × (count ≤ max_elements)
        × (all_laid_out count (elements_part (bodies_of ticket.now)) ≡ true)
        × (buffers_short count (data_size count (elements_part (bodies_of ticket.now))) (buffers_held out.old) ≡ false) }
    ensures same_buffers { SameBuffers out.old out.new }
    ensures read { with_buffers 0 result (buffers_held out.new)
        ≡ list_over (elements_in count (elements_part (bodies_of ticket.now))) (buffers_held out.old) }
{
    let mut at: usize = HEAD_BYTES;
    let mut used: usize = 0;
    for i in 0..count {
        // always so here: the layout was looked at before
        if let Some(head) = head_at(ticket, at) {
            copy_from_bodies(ticket, at + head.len, head.size, used, out.data);
            at += head.len + head.size;
            used += head.size;
            out.put(i, used, head.index);
        }
    }
    used
}

// Reads a ticket: R and S in the answer, the elements as a list over the first numbers of the four lent buffers. A refusal leaves the
// buffers as they were.
pub fn read_ticket(ticket: &[u8], out: &mut Buffers) -> Result<TicketProof, Refusal>
    ensures same_buffers { SameBuffers out.old out.new }
    ensures read { ticket_read_by result (buffers_held out.new) ≡ ticket_read «ticket».now (buffers_held out.old) }
{
    if is_damaged(ticket) {
        return Err(Refusal::DamagedTicket);
    }
    let found = find_elements(ticket).ok_or(Refusal::NoTicket)?;
    if out.is_short(found.elements, found.bytes) {
        return Err(Refusal::BufferShort);
    }
    let bytes = read_elements(ticket, found.elements, out);
    Ok(TicketProof {
        retry: RetryCounter(field(ticket, 4, 8)),
        search: SearchCounter(field(ticket, 12, 8)),
        elements: found.elements,
        bytes,
    })
}
