ghost use Rattle.std.specs.Prelude.{◌≡◌, ◌+◌, ◌<◌, ◌≤◌, ℕ, List, length, replicate, take, Some, None, IsOk, OnOk, OnErr};
ghost use Rattle.aes_block.specs.Bytes.{xor_bytes};
ghost use Rattle.siv_mode.specs.Cmac.{cmac as cmac_of, doubled, padded};
ghost use Rattle.siv_mode.specs.Siv.{s2v as s2v_of, siv_sealed, siv_opened, siv_text, ad_of, mixed, xored_end};

use crate::blocks::{double, pad};
use crate::keystream::apply_keystream;
use crate::mac::{RunningMac, cmac};
use aes_block::{BlockKey, blocks_equal, xor_onto};
use thiserror::Error;

/// A sealed text whose tag isn't that of its text: it was changed, or sealed under another key or
/// associated string.
#[derive(Clone, Copy, Debug, PartialEq, Eq, Error)]
#[error("the tag differs")]
pub struct BadTag;

/// The bytes of a tag, which is before the text that it seals (RFC 5297, 2.6).
pub const TAG_LEN: usize = 16;

/// The block of 16 bytes that S2V makes of an associated string, if there is one, and a text
/// (RFC 5297, 2.4).
pub fn s2v<K: BlockKey>(key: &K, ad: Option<&[u8]>, text: &[u8]) -> [u8; 16]
    ensures { result ≡ s2v_of (K.cipher key.now) (ad_of ad.entry) text.now }
{
    let mixed = mixed_ad(key, ad);
    if text.len() < 16 {
        short_s2v(key, mixed, text)
    } else {
        long_s2v(key, mixed, text)
    }
}

// The same of D and a text that is shorter than a block.
fn short_s2v<K: BlockKey>(key: &K, mixed: [u8; 16], text: &[u8]) -> [u8; 16]
    requires { length text.now < 16 }
    ensures { result ≡ cmac_of (K.cipher key.now) (xor_bytes (doubled mixed) (padded text.now)) }
{
    let mut last = double(mixed);
    xor_onto(&mut last, &pad(text));
    cmac(key, &last)
}

// And of a longer one.
fn long_s2v<K: BlockKey>(key: &K, mixed: [u8; 16], text: &[u8]) -> [u8; 16]
    requires { 16 ≤ length text.now }
    ensures { result ≡ cmac_of (K.cipher key.now) (xored_end text.now mixed) }
{
    let (front, back) = text.split_at(text.len() - 16);
    let mut end = [0; 16];
    end.copy_from_slice(back);
    xor_onto(&mut end, &mixed);
    let mut mac = RunningMac::new();
    mac.absorb(key, front);
    mac.absorb(key, &end);
    mac.finish(key)
}

// D after the associated string, if there is one (RFC 5297, 2.4).
fn mixed_ad<K: BlockKey>(key: &K, ad: Option<&[u8]>) -> [u8; 16]
    ensures { result ≡ mixed (K.cipher key.now) (ad_of ad.entry) }
{
    let start = cmac(key, &[0; 16]);
    match ad {
        Some(ad) => {
            let mut mixed = double(start);
            xor_onto(&mut mixed, &cmac(key, ad));
            mixed
        }
        None => start,
    }
}

/// Seals a text: its tag, and then the text encrypted (RFC 5297, 2.6). `mac` is the key that S2V
/// takes, `ctr` the key of the counters, and `ad` an associated string that isn't kept, but is
/// needed again to open. `out` is [`TAG_LEN`] longer than the text.
pub fn seal<K: BlockKey>(mac: &K, ctr: &K, ad: Option<&[u8]>, text: &[u8], out: &mut [u8])
    requires { length out.old ≡ length text.now + TAG_LEN }
    ensures { out.new
        ≡ siv_sealed (K.cipher mac.now) (K.cipher ctr.now) (ad_of ad.entry) text.now }
{
    let tag = s2v(mac, ad, text);
    let (front, back) = out.split_at_mut(TAG_LEN);
    front.copy_from_slice(&tag);
    back.copy_from_slice(text);
    apply_keystream(ctr, tag, back);
}

/// Opens a sealed text (RFC 5297, 2.7). `out` is [`TAG_LEN`] shorter than it, and holds the text
/// then. It fails with `BadTag` if and only if the tag differs, and `out` is all zeros then.
pub fn open<K: BlockKey>(
    mac: &K,
    ctr: &K,
    ad: Option<&[u8]>,
    sealed: &[u8],
    out: &mut [u8],
) -> Result<(), BadTag>
    requires { length sealed.now ≡ length out.old + TAG_LEN }
    ensures opened { OnOk result
        (siv_opened (K.cipher mac.now) (K.cipher ctr.now) (ad_of ad.entry) sealed.now
        ≡ Some out.new) }
    ensures closed { OnErr result
        (siv_opened (K.cipher mac.now) (K.cipher ctr.now) (ad_of ad.entry) sealed.now ≡ None) }
    ensures refused { OnErr result (out.new ≡ replicate (length out.old) 0) }

    // It is accepted if and only if sealing some text gives it.
    ensures exact { OnOk result
        (sealed.now ≡ siv_sealed (K.cipher mac.now) (K.cipher ctr.now) (ad_of ad.entry) out.new) }
    ensures only { (text : List ℕ)
        → sealed.now ≡ siv_sealed (K.cipher mac.now) (K.cipher ctr.now) (ad_of ad.entry) text
        → IsOk result × (out.new ≡ text) }
{
    mac.makes_blocks();
    ctr.makes_blocks();
    let tag = decrypt(ctr, sealed, out);
    if blocks_equal(&s2v(mac, ad, out), &tag) {
        Ok(())
    } else {
        out.fill(0);
        Err(BadTag)
    }
}

// Decrypts what is after the tag of a sealed text, whether it is right or wrong, and returns the tag.
fn decrypt<K: BlockKey>(ctr: &K, sealed: &[u8], out: &mut [u8]) -> [u8; TAG_LEN]
    requires { length sealed.now ≡ length out.old + TAG_LEN }
    ensures tag { result ≡ take TAG_LEN sealed.now }
    ensures text { out.new ≡ siv_text (K.cipher ctr.now) sealed.now }
{
    let (front, back) = sealed.split_at(TAG_LEN);
    let mut tag = [0; TAG_LEN];
    tag.copy_from_slice(front);
    out.copy_from_slice(back);
    apply_keystream(ctr, tag, out);
    tag
}
