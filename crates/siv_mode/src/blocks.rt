ghost use Rattle.std.specs.Prelude.{◌≡◌, ◌<◌, length};
ghost use Rattle.siv_mode.specs.Cmac.{doubled, padded};

// The constant that is xored in if a one leaves a doubled block (SP 800-38B, 5.3).
const REDUCTION: u128 = 0x87;

/// A block doubled (SP 800-38B, 6.1).
pub(crate) fn double(block: [u8; 16]) -> [u8; 16]
    ensures { result ≡ doubled block }
{
    let number = u128::from_be_bytes(block);
    // Without a branch, so that the time taken doesn't reveal the bit.
    let reduction = (number >> 127) * REDUCTION;
    ((number << 1) ^ reduction).to_be_bytes()
}

/// Fewer than 16 bytes, filled up to a block by a one bit and zeros.
pub(crate) fn pad(bytes: &[u8]) -> [u8; 16]
    requires { length bytes.now < 16 }
    ensures { result ≡ padded bytes.now }
{
    let len = bytes.len();
    let mut block = [0; 16];
    block[..len].copy_from_slice(bytes);
    block[len] = 0x80;
    block
}
