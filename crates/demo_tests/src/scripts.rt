//! Scripts: the two shortest byte for byte, others by their length and SHA-256.

ghost use Rattle.std.specs.Prelude.{◌<◌};

use demonstration::{script, stream_seed};
use sha2::{Digest, Sha256};
use std::alloc::{AllocError, Global};
use std::process::Abort;
use std::test::Fail;

fn hex_of(alloc: Global, client: u32, requests: u32) -> Result<String, AllocError>
    requires { client < 64 }
{
    let sent = script(alloc, 0, client, requests)?;
    hex::encode(alloc, sent.as_slice())
}

// A script's length and SHA-256.
fn hash_of(
    alloc: Global,
    seed: u64,
    client: u32,
    requests: u32,
) -> Result<(usize, String), AllocError>
    requires { client < 64 }
{
    let sent = script(alloc, seed, client, requests)?;
    let hash = hex::encode(alloc, Sha256::digest(sent.as_slice()))?;
    Ok((sent.len(), hash))
}

fn is_hash(rt: &impl Abort, found: &(usize, String), len: usize, hash: &str) {
    assert_eq!(rt; found.0, len);
    assert!(rt; found.1.as_str() == hash);
}

#[test]
fn a_client_attaches_and_makes_its_directory(rt: HostRuntime) -> Result<(), Fail> {
    let attached = hex_of(rt.alloc(), 0, 0)?;
    assert!(rt;
        attached.as_str()
            == "1300000064ffff1800010006003950323030301700000068010000000000ffffffff040064656d6f0000"
    );
    let made = hex_of(rt.alloc(), 42, 1)?;
    assert!(rt;
        made.as_str()
            == "1300000064ffff1800010006003950323030301700000068010000000000ffffffff040064656d6f0000110000006e01000000000001000000000015000000720100010000000300633432ed010080000b00000078010001000000"
    );
    Ok(())
}

#[test]
fn a_script_is_drawn_from_its_clients_words(rt: HostRuntime) -> Result<(), Fail> {
    let alloc = rt.alloc();
    is_hash(
        &rt,
        &hash_of(alloc, 7, 3, 40)?,
        8941,
        "c3dd90183e4f0823f654742f9d6230f2df5a9db08ba8a16c3398f9411950e08e",
    );
    is_hash(
        &rt,
        &hash_of(alloc, 7, 0, 200)?,
        44783,
        "ea2a21ba28394d55874b7fd00e812f1557a3eebe9c83de05ae6848d8e1e347ce",
    );
    is_hash(
        &rt,
        &hash_of(alloc, 7, 63, 1000)?,
        207_162,
        "64c71bf64d80a6502125ffc955a4461fdaae7f5e554f5a614dfa5a192237b09a",
    );
    is_hash(
        &rt,
        &hash_of(alloc, u64::MAX, 10, 300)?,
        59868,
        "1b564f1452d36c334b8fb85d35ced62c1d05bd97d5e3f1ff7035758a992088ef",
    );
    is_hash(
        &rt,
        &hash_of(alloc, 258, 9, 500)?,
        87753,
        "1c637e868440c675adb0268b001162ed55f9514ecf997a68a3626aa3b1d7ef34",
    );
    Ok(())
}

#[test]
fn a_seed_spells_both_numbers(rt: HostRuntime) -> Result<(), Fail> {
    let seed = hex::encode(rt.alloc(), stream_seed(0x0102_0304_0506_0708, 1000))?;
    assert!(rt;
        seed.as_str() == "010203040506070800000000000003e800000000000000000000000000000000"
    );
    Ok(())
}
