// Rows of keys that are derived from passwords: PBKDF2 (RFC 8018) and scrypt (RFC 7914).

use crate::row::{Call, RowErr, bytes, end, number, same, word};
use scrypt_kdf::{ScryptErr, pbkdf2};
use std::alloc::Global;

/// password salt turns output
pub(crate) fn pbkdf2_sha256(alloc: Global, row: &str) -> Result<(), RowErr> {
    let mut fields = row.split(' ');
    let password = bytes(alloc, fields.next())?;
    let salt = bytes(alloc, fields.next())?;
    let turns = number(fields.next())?;
    let wanted = bytes(alloc, fields.next())?;
    end(fields.next())?;
    if turns == 0 || turns > u32::MAX as u64 {
        return Err(RowErr::Number);
    }
    let mut out = Vec::from_slice(alloc, &wanted)?;
    out.fill(0);
    pbkdf2(&password, &salt, turns as u32, &mut out);
    same(Call::Pbkdf2, &out, &wanted)
}

/// password salt N r p output
pub(crate) fn scrypt(alloc: Global, row: &str) -> Result<(), RowErr> {
    let mut fields = row.split(' ');
    let password = bytes(alloc, fields.next())?;
    let salt = bytes(alloc, fields.next())?;
    let cost = number(fields.next())?;
    let r = number(fields.next())?;
    let p = number(fields.next())?;
    let wanted = bytes(alloc, fields.next())?;
    end(fields.next())?;
    let mut out = Vec::from_slice(alloc, &wanted)?;
    out.fill(0);
    match scrypt_kdf::scrypt(alloc, &password, &salt, cost, r, p, &mut out) {
        Ok(()) => same(Call::Scrypt, &out, &wanted),
        Err(_) => Err(RowErr::Differs(Call::ScryptAnswer)),
    }
}

/// N r p cost|size
pub(crate) fn scrypt_refused(alloc: Global, row: &str) -> Result<(), RowErr> {
    let mut fields = row.split(' ');
    let cost = number(fields.next())?;
    let r = number(fields.next())?;
    let p = number(fields.next())?;
    let cause = word(fields.next())?;
    end(fields.next())?;
    let wanted = if cause == "cost" {
        ScryptErr::BadCost
    } else if cause == "size" {
        ScryptErr::TooLarge
    } else {
        return Err(RowErr::Word);
    };
    let mut out = [7; 32];
    if scrypt_kdf::scrypt(alloc, b"password", b"NaCl", cost, r, p, &mut out) != Err(wanted) {
        return Err(RowErr::Differs(Call::ScryptAnswer));
    }
    same(Call::LeftByScrypt, &out, &[7; 32])
}
