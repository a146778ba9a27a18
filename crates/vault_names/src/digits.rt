ghost use Rattle.std.specs.Prelude.{◌≡◌, ◌-◌, ◌/◌, ◌%◌, ◌^◌, ◌<◌, length};
ghost use Rattle.aes_block.specs.Bytes.{number_of};
ghost use Rattle.vault_names.specs.Folder.{base32, base32_digit};

// A group of 40 bits is 5 bytes and 8 digits.
const GROUP_LEN: usize = 5;

const GROUP_DIGITS: usize = 8;

/// A hash of 20 bytes in base32 (RFC 4648, section 6): 32 digits, each of 5 bits, the most significant first.
pub fn base32(hash: &[u8; 20]) -> [u8; 32]
    ensures { result ≡ base32 hash.now }
{
    let mut digits = [0; 32];
    for i in 0..32 {
        digits[i] = digit(five_bits(hash, i));
    }
    digits
}

// The digit of 5 bits (RFC 4648, table 3).
fn digit(bits: u8) -> u8
    requires { bits < 32 }
    ensures { result ≡ base32_digit bits }
{
    if bits < 26 {
        b'A' + bits
    } else {
        b'2' + (bits - 26)
    }
}

// The bits that the digit at `index` stands for.
fn five_bits(hash: &[u8; 20], index: usize) -> u8
    requires { index < 32 }
    ensures { result ≡ number_of hash.now / 32 ^ (31 - index) % 32 }
{
    let start = index / GROUP_DIGITS * GROUP_LEN;
    let number = group_number(&hash[start..start + GROUP_LEN]);
    let bits_behind = 5 * (GROUP_DIGITS - 1 - index % GROUP_DIGITS);
    ((number >> bits_behind) % 32) as u8
}

// The number that the 5 bytes of a group spell.
fn group_number(group: &[u8]) -> u64
    requires { length group.now ≡ 5 }
    ensures { result ≡ number_of group.now }
{
    u64::from_be_bytes([0, 0, 0, group[0], group[1], group[2], group[3], group[4]])
}
