// Bytes copied. This loop, and not the library's, is what the C of dist/ copies by, so that all of that is made of code proved here.

ghost use Rattle.std.specs.Prelude.{◌≡◌, length};

// The bytes lent, over as many others.
pub fn copy_over(bytes: &[u8], out: &mut [u8])
    requires { length bytes.now ≡ length out.old }
    ensures { out.new ≡ bytes.now }
{
    for i in 0..bytes.len() {
        out[i] = bytes[i];
    }
}
