// Copying into the front of a lent slice.
ghost use Rattle.std.specs.Prelude.{◌≡◌, ◌++◌, ◌≤◌, length, take, drop};

// The first n bytes of src into the front of dst; the rest of dst stays.
pub fn put(src: &[u8], n: usize, dst: &mut [u8])
    requires { (n ≤ length src.now) × (n ≤ length dst.old) }
    ensures { dst.new ≡ take n src.now ++ drop n dst.old }
{
    dst[..n].copy_from_slice(&src[..n]);
}
