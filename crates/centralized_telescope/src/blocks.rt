// Blocks of 512 bytes: 504 of body, then the first 8 bytes of the body's SHA-256. What the bodies hold is not looked at here.
ghost use Rattle.std.specs.Prelude.{◌≡◌, ◌+◌, ◌*◌, ◌/◌, ◌%◌, ◌≤◌, ◌++◌, length, take, drop};
ghost use Rattle.centralized_telescope.specs.later.Words.{same_bytes};
ghost use Rattle.centralized_telescope.specs.later.Blocks.{body_check, sealed, bodies_of, checks_hold, damaged, block_bytes, body_bytes};
ghost use Rattle.centralized_telescope.specs.later.Blocks.{check_bytes, with_check};

use crate::numbers::copy_at;

// A block's bytes, those of its body, and those of the check behind it.
pub const BLOCK_BYTES: usize = 512;

pub const BODY_BYTES: usize = 504;

const CHECK_BYTES: usize = 8;

// So many bytes of filling there are at most: no block holds only filling.
pub const MAX_FILLING: usize = BODY_BYTES - 1;

// The check of a body.
fn check_of(body: &[u8]) -> [u8; CHECK_BYTES]
    requires { length body.now ≡ body_bytes }
    ensures { result ≡ body_check body.now }
{
    let digest = sampling::sha256::sha256(body, b"", b"", b"").unwrap();
    let mut out = [0u8; CHECK_BYTES];
    out.copy_from_slice(&digest[..CHECK_BYTES]);
    out
}

// ---- Writing

// Makes the k-th of the joined bodies the k-th block.
fn seal_one(out: &mut [u8], k: usize)
    requires { block_bytes * k + block_bytes ≤ length out.old }
    ensures { out.new ≡ take (block_bytes * k) out.old
        ++ (with_check (take body_bytes (drop (body_bytes * k) out.old))
        ++ drop (block_bytes * k + block_bytes) out.old) }
{
    // a copy, since the block may lie over its body
    let mut body = [0u8; BODY_BYTES];
    body.copy_from_slice(&out[BODY_BYTES * k..BODY_BYTES * k + BODY_BYTES]);
    let check = check_of(&body);
    copy_at(&body, BLOCK_BYTES * k, out);
    copy_at(&check, BLOCK_BYTES * k + BODY_BYTES, out);
}

// Makes n bodies, joined in the first bytes of a buffer, n blocks. From the last to the first: a block lies behind the bodies before it.
pub fn seal(out: &mut [u8], n: usize)
    requires { block_bytes * n ≤ length out.old }
    ensures { out.new ≡ sealed n out.old ++ drop (block_bytes * n) out.old }
{
    for k in (0..n).rev() {
        seal_one(out, k);
    }
}

// ---- Reading

// Whether the k-th block has the check of its body.
#[tactic(auto, using(crate::proofs::BlockReading::check_read))]
fn check_holds(ticket: &[u8], k: usize) -> bool
    requires { block_bytes * k + block_bytes ≤ length ticket.now }
    ensures { result ≡ same_bytes (body_check (take body_bytes (drop (block_bytes * k) ticket.now)))
        (take check_bytes (drop body_bytes (drop (block_bytes * k) ticket.now))) }
{
    let at = BLOCK_BYTES * k;
    let check = check_of(&ticket[at..at + BODY_BYTES]);
    check[..] == ticket[at + BODY_BYTES..at + BLOCK_BYTES]
}

// Whether every block has the check of its body. What is left over behind whole blocks isn't looked at.
fn all_checks_hold(ticket: &[u8]) -> bool
    ensures { result ≡ checks_hold (length ticket.now / block_bytes) ticket.now }
{
    (0..ticket.len() / BLOCK_BYTES).all(|k| check_holds(ticket, k))
}

// Whether the size isn't whole blocks, or a block's check fails.
#[tactic(auto, unfolding(crate::specs::later::Blocks::damaged))]
pub fn is_damaged(ticket: &[u8]) -> bool
    ensures { result ≡ damaged ticket.now }
{
    ticket.len() % BLOCK_BYTES != 0 || !all_checks_hold(ticket)
}

// Copies a part of the joined bodies, `len` bytes from the offset `at` on, to the offset `used` of a buffer. A part may straddle blocks.
pub fn copy_from_bodies(ticket: &[u8], at: usize, len: usize, used: usize, out: &mut [u8])
    requires { (at + len ≤ body_bytes * (length ticket.now / block_bytes)) × (used + len ≤ length out.old) }
    ensures { out.new ≡ take used out.old
        ++ (take len (drop at (bodies_of ticket.now)) ++ drop (used + len) out.old) }
{
    let mut done = 0;
    // a step is what its body has left, which no range goes by
    while done < len {
        let offset = at + done;
        let from = offset / BODY_BYTES * BLOCK_BYTES + offset % BODY_BYTES;
        let n = (BODY_BYTES - offset % BODY_BYTES).min(len - done);
        copy_at(&ticket[from..from + n], used + done, out);
        done += n;
    }
}
