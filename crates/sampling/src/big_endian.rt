// Numbers in bytes, the most significant byte first.
ghost use Rattle.std.specs.Prelude.{◌≡◌, ◌^◌, ◌<◌, min, length};
ghost use Rattle.sampling.specs.core.BigEndian.{big_endian, bytes_of};

// The number that lent bytes make; of more than 8, the first 8.
pub fn number_of(bytes: &[u8]) -> u64
    ensures { (result ≡ big_endian (min (length bytes.now) 8) bytes.now)
        × (result < 256 ^ min (length bytes.now) 8) }
{
    let mut v: u64 = 0;
    for byte in &bytes[..bytes.len().min(8)] {
        v = v * 256 + u64::from(*byte);
    }
    v
}

// v into lent bytes, as many as there are: written from the last byte to the first. Their places are counted, since a slice's iterator from
// the back would be functions of the library's in the C of dist/, and a range is none.
pub fn write_number(v: u64, out: &mut [u8])
    ensures { out.new ≡ bytes_of (length out.old) v }
{
    let mut rest = v;
    for k in (0..out.len()).rev() {
        out[k] = (rest % 256) as u8;
        rest /= 256;
    }
}

// v in 8 bytes.
pub fn eight_bytes(v: u64) -> [u8; 8]
    ensures { result ≡ bytes_of 8 v }
{
    let mut out = [0u8; 8];
    write_number(v, &mut out);
    out
}
