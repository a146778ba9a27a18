use std::test::Fail;
use unlocking::{FoundFile, UnlockErr, open_masterkey_file, open_vault_file, unlock_found};
use vault_config::write;
use vault_keys::VaultKeys;

// Written by Python's `hashlib.scrypt` and `aes_key_wrap` of its package `cryptography`.
const MASTERKEY_FILE: &[u8] =
    br#"{"scryptSalt": "m04NcvGGOsU=", "scryptCostParam": 2, "scryptBlockSize": 1, "primaryMasterKey": "4O+4VPAateKJFNRSaQoLWwt6sAn3GlthjnTE3DK813b9c8JYmR1fWA==", "hmacMasterKey": "vwaqhNQxJGzO+fdz+UFhXsPGWmSidgq9SbVEtEtFVj9sZdR6OKoKbQ=="}"#;

const BAD_COST: &[u8] =
    br#"{"scryptSalt": "", "scryptCostParam": 3, "scryptBlockSize": 1, "primaryMasterKey": "4O+4VPAateKJFNRSaQoLWwt6sAn3GlthjnTE3DK813b9c8JYmR1fWA==", "hmacMasterKey": "vwaqhNQxJGzO+fdz+UFhXsPGWmSidgq9SbVEtEtFVj9sZdR6OKoKbQ=="}"#;

const GOOD: FoundFile<'static> = FoundFile::File(MASTERKEY_FILE);

// A secret and two files, and the line and the status for which the vault isn't unlocked.
struct Refused {
    secret: &'static [u8],
    masterkey: FoundFile<'static>,
    vault: FoundFile<'static>,
    line: &'static str,
    status: u8,
}

// Of each two neighbours in the order of the tests both are at fault.
static REFUSED: [Refused; 12] = [
    Refused {
        secret: b"\n",
        masterkey: FoundFile::Absent,
        vault: FoundFile::Absent,
        line: "bad secret",
        status: 2,
    },
    Refused {
        secret: b"correct horsf",
        masterkey: FoundFile::Absent,
        vault: FoundFile::Absent,
        line: "vault refused: no masterkey file",
        status: 3,
    },
    Refused {
        secret: b"correct horse",
        masterkey: FoundFile::Folder,
        vault: FoundFile::Absent,
        line: "vault refused: no masterkey file",
        status: 3,
    },
    Refused {
        secret: b"correct horsf",
        masterkey: FoundFile::File(b"[]"),
        vault: FoundFile::Absent,
        line: "vault refused: masterkey file: not JSON",
        status: 3,
    },
    Refused {
        secret: b"correct horsf",
        masterkey: FoundFile::File(br#"{"scryptSalt":"","scryptCostParam":3}"#),
        vault: FoundFile::Absent,
        line: "vault refused: masterkey file: field scryptBlockSize",
        status: 3,
    },
    Refused {
        secret: b"correct horsf",
        masterkey: FoundFile::File(BAD_COST),
        vault: FoundFile::Absent,
        line: "vault refused: masterkey file: cost",
        status: 3,
    },
    Refused {
        secret: b"correct horsf",
        masterkey: GOOD,
        vault: FoundFile::Absent,
        line: "wrong password",
        status: 2,
    },
    Refused {
        secret: b"correct horse\r\n",
        masterkey: GOOD,
        vault: FoundFile::Absent,
        line: "wrong password",
        status: 2,
    },
    Refused {
        secret: b"correct horse\n",
        masterkey: GOOD,
        vault: FoundFile::Absent,
        line: "vault refused: no vault file",
        status: 3,
    },
    Refused {
        secret: b"correct horse\nx",
        masterkey: GOOD,
        vault: FoundFile::Folder,
        line: "vault refused: no vault file",
        status: 3,
    },
    Refused {
        secret: b"correct horse",
        masterkey: GOOD,
        vault: FoundFile::File(b"e30.e30"),
        line: "vault refused: vault file: not a token",
        status: 3,
    },
    Refused {
        secret: b"correct horse",
        masterkey: GOOD,
        vault: FoundFile::File(b"e30.e30."),
        line: "vault refused: vault file: algorithm",
        status: 3,
    },
];

#[test]
fn the_first_cause_is_told(rt: HostRuntime) -> Result<(), Fail> {
    for row in &REFUSED {
        let cause = unlock_found(rt.alloc(), row.secret, row.masterkey, row.vault).err();
        let cause = cause.ok_or(row.line)?;
        let line = format!(in rt.alloc(); "{cause}")?;
        assert_eq!(rt; line.as_str(), row.line);
        assert_eq!(rt; cause.status(), row.status, "{}", row.line);
    }
    Ok(())
}

#[test]
fn a_vault_is_unlocked_by_its_password(rt: HostRuntime) -> Result<(), Fail> {
    let keys = open_masterkey_file(rt.alloc(), b"correct horse", GOOD)?;
    for threshold in [1, 220, 250] {
        let token = write(rt.alloc(), &keys, threshold, &[0; 16])?;
        let vault = FoundFile::File(&token);
        let unlocked = unlock_found(rt.alloc(), b"correct horse\n", GOOD, vault)?;
        assert_eq!(rt; unlocked.threshold, threshold);
        assert!(rt; unlocked.keys.mac_key().bytes() == keys.mac_key().bytes());
        let other = VaultKeys::new(&keys.mac_key().bytes(), &keys.mac_key().bytes());
        let refused = open_vault_file(rt.alloc(), other, vault).err();
        assert!(rt; matches!(refused, Some(UnlockErr::VaultFile(_))));
    }
    Ok(())
}
