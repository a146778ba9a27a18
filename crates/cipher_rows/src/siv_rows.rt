// Rows of SIV (RFC 5297).

ghost use Rattle.std.specs.Prelude.{◌≡◌, ◌⊎◌, length};

use crate::row::{Call, RowErr, block, bytes, end, key, same, word};
use aes_block::{BlockKey, Key128, Key256};
use siv_mode::{BadTag, TAG_LEN, open, seal};
use std::alloc::Global;
use vault_keys::VaultKeys;

/// S2V-key CTR-key associated text sealed; `none` for no associated string
pub(crate) fn siv(alloc: Global, row: &str) -> Result<(), RowErr> {
    let mut fields = row.split(' ');
    let mac = word(fields.next())?;
    let ctr = word(fields.next())?;
    let ad = word(fields.next())?;
    let ad_bytes = bytes(alloc, Some(if ad == "none" { "-" } else { ad }))?;
    let ad = if ad == "none" {
        None
    } else {
        Some(ad_bytes.as_slice())
    };
    let text = bytes(alloc, fields.next())?;
    let sealed = bytes(alloc, fields.next())?;
    end(fields.next())?;
    if mac.len() == 32 {
        let (mac, ctr) = (block(Some(mac))?, block(Some(ctr))?);
        both_ways(
            alloc,
            &Key128::new(&mac),
            &Key128::new(&ctr),
            ad,
            &text,
            &sealed,
        )?;
        plain(alloc, &mac, &ctr, ad, &text, &sealed)
    } else {
        let (mac, ctr) = (key(Some(mac))?, key(Some(ctr))?);
        let keys = VaultKeys::new(&ctr, &mac);
        both_ways(
            alloc,
            keys.mac_key(),
            keys.encryption_key(),
            ad,
            &text,
            &sealed,
        )?;
        plain(alloc, &mac, &ctr, ad, &text, &sealed)
    }
}

// The texts that the plain functions open: they take a hundred times as long as the others.
const PLAIN_LEN: usize = 32;

// Seals and opens, and opens with a byte of the tag and one of the text changed.
fn both_ways<K: BlockKey>(
    alloc: Global,
    mac: &K,
    ctr: &K,
    ad: Option<&[u8]>,
    text: &[u8],
    sealed: &[u8],
) -> Result<(), RowErr> {
    let mut out = Vec::from_slice(alloc, sealed)?;
    if out.len() != text.len() + TAG_LEN {
        return Err(RowErr::Length);
    }
    out.fill(0);
    seal(mac, ctr, ad, text, &mut out);
    same(Call::Seal, &out, sealed)?;
    let mut opened = Vec::from_slice(alloc, text)?;
    opened.fill(0);
    if open(mac, ctr, ad, sealed, &mut opened).is_err() {
        return Err(RowErr::Differs(Call::Open));
    }
    same(Call::Open, &opened, text)?;
    refused(alloc, mac, ctr, ad, sealed, 0)?;
    refused(alloc, mac, ctr, ad, sealed, TAG_LEN - 1)?;
    refused(alloc, mac, ctr, ad, sealed, sealed.len() - 1)
}

// Opens with byte `at` changed: it is refused, and zeros are left.
fn refused<K: BlockKey>(
    alloc: Global,
    mac: &K,
    ctr: &K,
    ad: Option<&[u8]>,
    sealed: &[u8],
    at: usize,
) -> Result<(), RowErr> {
    if sealed.len() < TAG_LEN || at >= sealed.len() {
        return Err(RowErr::Length);
    }
    let mut changed = Vec::from_slice(alloc, sealed)?;
    changed[at] ^= 0x10;
    let zeros = vec![in alloc; 0u8; sealed.len() - TAG_LEN]?;
    let mut out = vec![in alloc; 9u8; sealed.len() - TAG_LEN]?;
    if open(mac, ctr, ad, &changed, &mut out) != Err(BadTag) {
        return Err(RowErr::Differs(Call::OpenChanged));
    }
    same(Call::LeftByOpen, &out, &zeros)
}

// The plain functions, on keys of 16 or 32 bytes.
fn plain(
    alloc: Global,
    mac: &[u8],
    ctr: &[u8],
    ad: Option<&[u8]>,
    text: &[u8],
    sealed: &[u8],
) -> Result<(), RowErr>
    requires mac { (length mac.now ≡ 16) ⊎ (length mac.now ≡ 32) }
    requires ctr { (length ctr.now ≡ 16) ⊎ (length ctr.now ≡ 32) }
{
    let made = model_contents::siv_sealed(alloc, mac, ctr, ad, text)?;
    same(Call::PlainSealed, &made, sealed)?;
    if text.len() > PLAIN_LEN || sealed.len() < TAG_LEN {
        return Ok(());
    }
    match model_contents::siv_opened(alloc, mac, ctr, ad, sealed)? {
        Some(opened) => same(Call::PlainOpened, &opened, text),
        None => Err(RowErr::Differs(Call::PlainOpened)),
    }
}
