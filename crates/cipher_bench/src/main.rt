//! Does what a cipher does again and again, so that a script can take the time. The words are a measure, or several one behind the other,
//! each of which prints a line in hexadecimal:
//!
//! - `scrypt N R P TIMES`: derives a key of 64 bytes, which is printed; zeros where it is derived no time.
//! - `gcm WHAT BYTES TIMES`: seals or opens a text of so many bytes, or makes a key ready (`seal`, `open`, `key` or `header`), and prints the last tag.
//! - `ctrmac WHAT BYTES TIMES`: seals or opens a chunk of so many bytes under SIV_CTRMAC (`seal` or `open`), and prints the end of the last HMAC.
//! - `siv HOW BYTES TIMES`: seals a name of so many bytes with AES in lanes or a block at a time, or makes its tag alone, in lanes (`lanes`,
//!   `blocks` or `tag`), and prints the last tag.
#![tactic(auto)]

mod ctrmac;
mod gcm;
mod scrypt;
mod siv;
mod words;

use std::alloc::{AllocError, Global};
use std::env;
use words::BenchErr;

// What a measure prints, and the words behind it.
fn measured<'a>(
    alloc: Global,
    cipher: &str,
    words: &'a [String],
) -> Result<(String, &'a [String]), BenchErr> {
    let (line, count) = match cipher {
        "scrypt" => (scrypt::measured(alloc, words)?, scrypt::WORDS),
        "gcm" => (gcm::measured(alloc, words)?, gcm::WORDS),
        "ctrmac" => (ctrmac::measured(alloc, words)?, ctrmac::WORDS),
        "siv" => (siv::measured(alloc, words)?, siv::WORDS),
        _ => return Err(BenchErr::Words),
    };
    Ok((line, words.get(count..).unwrap_or(&[])))
}

fn main(rt: HostRuntime) -> Result<(), BenchErr> {
    let mut words = Vec::new(rt.alloc());
    for word in env::args(&rt)?.skip(1) {
        words.push(word).map_err(AllocError::from)?;
    }
    let mut rest = words.as_slice();
    for _measure in 0..words.len() {
        let Some((cipher, more)) = rest.split_first() else {
            break;
        };
        let (line, behind) = measured(rt.alloc(), cipher.as_str(), more)?;
        println!(rt; "{line}")?;
        rest = behind;
    }
    Ok(())
}
