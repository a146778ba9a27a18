// Salsa20/8 (RFC 7914, section 3) on words.

ghost use Rattle.std.specs.Prelude.{◌≡◌, [], ◌∷◌};
ghost use Rattle.scrypt_kdf.specs.Salsa.{add_words, double_round, quarter, salsa};

/// The words of a block.
pub(crate) const WORDS: usize = 16;

const DOUBLE_ROUNDS: usize = 4;

// A quarter round.
#[inline(always)]
fn quarter(a: u32, b: u32, c: u32, d: u32) -> [u32; 4]
    ensures { result ≡ quarter 0 1 2 3 (a ∷ b ∷ c ∷ d ∷ []) }
{
    let b = b ^ a.wrapping_add(d).rotate_left(7);
    let c = c ^ b.wrapping_add(a).rotate_left(9);
    let d = d ^ c.wrapping_add(b).rotate_left(13);
    let a = a ^ d.wrapping_add(c).rotate_left(18);
    [a, b, c, d]
}

// A double round: the columns, then the rows.
#[inline(always)]
fn double_round(x: [u32; WORDS]) -> [u32; WORDS]
    ensures { result ≡ double_round x }
{
    let [
        x0,
        x1,
        x2,
        x3,
        x4,
        x5,
        x6,
        x7,
        x8,
        x9,
        x10,
        x11,
        x12,
        x13,
        x14,
        x15,
    ] = x;
    let [x0, x4, x8, x12] = quarter(x0, x4, x8, x12);
    let [x5, x9, x13, x1] = quarter(x5, x9, x13, x1);
    let [x10, x14, x2, x6] = quarter(x10, x14, x2, x6);
    let [x15, x3, x7, x11] = quarter(x15, x3, x7, x11);
    let [x0, x1, x2, x3] = quarter(x0, x1, x2, x3);
    let [x5, x6, x7, x4] = quarter(x5, x6, x7, x4);
    let [x10, x11, x8, x9] = quarter(x10, x11, x8, x9);
    let [x15, x12, x13, x14] = quarter(x15, x12, x13, x14);
    [
        x0, x1, x2, x3, x4, x5, x6, x7, x8, x9, x10, x11, x12, x13, x14, x15,
    ]
}

// Adds words onto as many others.
#[inline(always)]
fn add_onto(target: &mut [u32; WORDS], words: &[u32; WORDS])
    ensures { target.new ≡ add_words words.now target.old }
{
    for (i, word) in target.iter_mut().enumerate() {
        *word = words[i].wrapping_add(*word);
    }
}

/// Salsa20/8 in place.
#[inline(always)]
pub(crate) fn salsa(x: &mut [u32; WORDS])
    ensures { x.new ≡ salsa x.old }
{
    let mut mixed = *x;
    for _round in 0..DOUBLE_ROUNDS {
        mixed = double_round(mixed);
    }
    add_onto(x, &mixed);
}
