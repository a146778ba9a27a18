//! Runs the vector files in `data/` through the public calls of the ciphers and of what they seal: names, folders and contents; and through
//! the plain functions where there are some.
//!
//! A file has a line for each row, its fields apart by one space; a line that begins with `#` is a comment. It is printed how many rows a file has, or
//! each row that can't be read or differs, by its number from 1. A file that can't be read is told too; the status is 1 then.
//!
//! For a further file: put it into `data/`, write a function that checks one of its rows, and add it below, and its line to `stdout`.
#![tactic(auto)]

mod block_rows;
mod content_rows;
mod counter_rows;
mod ctrmac_rows;
mod folder_rows;
mod gcm_rows;
mod mac_rows;
mod name_rows;
mod password_rows;
mod place_rows;
mod row;
mod siv_rows;
mod wrap_rows;

use row::RowErr;
use std::alloc::Global;
use std::process::ExitCode;
use std::{fs, io};

// Prints that a file can't be read.
fn print_unread(rt: &HostRuntime, name: &str, error: io::Error) -> io::Result<()> {
    println!(rt; "{name} can't be read: {error}")
}

// Prints why a row doesn't pass.
fn print_failed(rt: &HostRuntime, name: &str, row: u64, error: RowErr) -> io::Result<()> {
    println!(rt; "{name} row {row}: {error}")
}

// Prints how many rows pass.
fn print_passed(rt: &HostRuntime, name: &str, rows: u64) -> io::Result<()> {
    println!(rt; "{name} {rows} rows")
}

// Runs each row of a file through `check`, and prints what comes of it: whether all pass.
fn check_rows<F: Fn(Global, &str) -> Result<(), RowErr>>(
    rt: &HostRuntime,
    name: &str,
    text: &str,
    check: F,
) -> io::Result<bool>
    requires { F.IsAlwaysCallable check }
{
    let mut rows = 0u64;
    let mut passed = true;
    for line in text.lines() {
        if line.starts_with('#') {
            continue;
        }
        rows = rows.saturating_add(1);
        if let Err(error) = check(rt.alloc(), line) {
            print_failed(rt, name, rows, error)?;
            passed = false;
        }
    }
    if passed {
        print_passed(rt, name, rows)?;
    }
    Ok(passed)
}

// Runs the rows of the file `name`.txt through `check`.
fn check_file<F: Fn(Global, &str) -> Result<(), RowErr>>(
    rt: &HostRuntime,
    name: &str,
    check: F,
) -> io::Result<bool>
    requires { F.IsAlwaysCallable check }
{
    let path = format!(in rt.alloc(); "{name}.txt")?;
    match fs::read_to_string(rt, path.as_str()) {
        Ok(text) => check_rows(rt, name, text.as_str(), check),
        Err(error) => {
            print_unread(rt, name, error)?;
            Ok(false)
        }
    }
}

// The ciphers: AES, CMAC, SIV, key wrap and counter mode.
fn check_ciphers(rt: &HostRuntime) -> io::Result<bool> {
    let mut passed = check_file(rt, "aes-fips197", block_rows::aes)?;
    passed &= check_file(rt, "aes", block_rows::aes)?;
    passed &= check_file(rt, "round-keys-fips197", block_rows::round_key)?;
    passed &= check_file(rt, "cmac-rfc4493", mac_rows::cmac)?;
    passed &= check_file(rt, "cmac", mac_rows::cmac)?;
    passed &= check_file(rt, "siv-rfc5297", siv_rows::siv)?;
    passed &= check_file(rt, "siv", siv_rows::siv)?;
    passed &= check_file(rt, "keywrap-rfc3394", wrap_rows::key_wrap)?;
    passed &= check_file(rt, "keywrap", wrap_rows::key_wrap)?;
    passed &= check_file(rt, "ctr-sp800-38a", counter_rows::counted)?;
    passed &= check_file(rt, "ctr", counter_rows::counted)?;
    Ok(passed)
}

// What stands on hashes: HMAC, PBKDF2 and scrypt.
fn check_passwords(rt: &HostRuntime) -> io::Result<bool> {
    let mut passed = check_file(rt, "hmac-rfc4231", mac_rows::hmac)?;
    passed &= check_file(rt, "hmac", mac_rows::hmac)?;
    passed &= check_file(rt, "pbkdf2-rfc7914", password_rows::pbkdf2_sha256)?;
    passed &= check_file(rt, "pbkdf2", password_rows::pbkdf2_sha256)?;
    passed &= check_file(rt, "scrypt-rfc7914", password_rows::scrypt)?;
    passed &= check_file(rt, "scrypt", password_rows::scrypt)?;
    passed &= check_file(rt, "scrypt-refused", password_rows::scrypt_refused)?;
    Ok(passed)
}

// What is sealed by GCM: texts; and contents of files.
fn check_contents(rt: &HostRuntime) -> io::Result<bool> {
    let mut passed = check_file(rt, "gcm", gcm_rows::gcm)?;
    passed &= check_file(rt, "gcm-submission", gcm_rows::gcm)?;
    passed &= check_file(rt, "contents-SIV_GCM", content_rows::content)?;
    passed &= check_file(rt, "contents-SIV_CTRMAC", ctrmac_rows::content)?;
    match gcm_rows::check_lengths(rt.alloc()) {
        Ok(count) => println!(rt; "lengths {count} rows")?,
        Err(error) => {
            println!(rt; "lengths: {error}")?;
            passed = false;
        }
    }
    Ok(passed)
}

// Names, their places, and folders.
fn check_names(rt: &HostRuntime) -> io::Result<bool> {
    let mut passed = check_file(rt, "names", name_rows::sealed)?;
    passed &= check_file(rt, "refused-texts", name_rows::refused_text)?;
    passed &= check_file(rt, "sealed-bytes", name_rows::sealed_bytes)?;
    passed &= check_file(rt, "clear-names", name_rows::clear)?;
    passed &= check_file(rt, "bad-names", name_rows::bad)?;
    passed &= check_file(rt, "places", place_rows::place)?;
    passed &= check_file(rt, "folders", folder_rows::folder)?;
    passed &= check_file(rt, "base32", folder_rows::base32_digits)?;
    Ok(passed)
}

// What no file has.
fn check_more() -> Result<(), RowErr> {
    block_rows::check_bytes()?;
    content_rows::check_sizes()?;
    content_rows::check_spans()?;
    content_rows::check_round_trip()?;
    ctrmac_rows::check_round_trip()
}

fn print_more(rt: &HostRuntime) -> io::Result<bool> {
    match check_more() {
        Ok(()) => {
            println!(rt; "bytes, sizes, spans, round trip")?;
            Ok(true)
        }
        Err(error) => {
            println!(rt; "bytes, sizes, spans, round trip: {error}")?;
            Ok(false)
        }
    }
}

// The texts of the errors.
fn print_errors(rt: &HostRuntime) -> io::Result<()> {
    println!(rt; "siv_mode: {}", siv_mode::BadTag)?;
    println!(rt; "key_wrap: {}", key_wrap::BadWrap)?;
    println!(rt; "scrypt_kdf: {}", scrypt_kdf::ScryptErr::BadCost)?;
    println!(rt; "scrypt_kdf: {}", scrypt_kdf::ScryptErr::TooLarge)?;
    println!(rt; "scrypt_kdf: {}", scrypt_kdf::ScryptErr::Memory)
}

fn main(rt: HostRuntime) -> io::Result<ExitCode> {
    let mut passed = check_ciphers(&rt)?;
    passed &= check_passwords(&rt)?;
    passed &= check_contents(&rt)?;
    passed &= check_names(&rt)?;
    passed &= print_more(&rt)?;
    print_errors(&rt)?;
    Ok(if passed {
        ExitCode::SUCCESS
    } else {
        ExitCode::FAILURE
    })
}
