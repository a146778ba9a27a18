// Bytes xored and compared, as every mode above the cipher needs it.

ghost use Rattle.std.specs.Prelude.{◌≡◌, ◌≤◌, ◌↔◌, IsTrue, length};
ghost use Rattle.aes_block.specs.Bytes.{xor_bytes};

/// Xors bytes onto `target`, place by place. Those past the length of `target` are not used.
#[inline(always)]
pub fn xor_onto(target: &mut [u8], bytes: &[u8])
    requires { length target.old ≤ length bytes.now }
    ensures { target.new ≡ xor_bytes target.old bytes.now }
{
    for (i, byte) in target.iter_mut().enumerate() {
        *byte ^= bytes[i];
    }
}

/// Whether two byte strings are the same. If their lengths agree, all bytes of both are read
/// whatever they are, so that the time taken doesn't reveal where the first that differ are. The
/// lengths are no secret.
pub fn bytes_equal(a: &[u8], b: &[u8]) -> bool
    ensures { IsTrue result ↔ (a.now ≡ b.now) }
{
    if a.len() != b.len() {
        return false;
    }
    let mut differences = 0;
    for i in 0..a.len() {
        differences |= a[i] ^ b[i];
    }
    differences == 0
}

/// Whether two blocks are the same, compared as by [`bytes_equal`].
pub fn blocks_equal(a: &[u8; 16], b: &[u8; 16]) -> bool
    ensures { IsTrue result ↔ (a.now ≡ b.now) }
{
    bytes_equal(a, b)
}
