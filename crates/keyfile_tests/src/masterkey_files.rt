use masterkey_file::{FieldName, KeyFileErr, PasswordErr, password, read, write};
use std::alloc::{AllocError, Global};
use std::test::Fail;
use vault_keys::VaultKeys;

// The files were written by Python's `hashlib.scrypt`, `hmac`, `json` and `base64`, and `aes_key_wrap` of its package
// `cryptography`.

const ENCRYPTION_KEY: [u8; 32] = [
    0xa1, 0xc3, 0xe5, 0x8f, 0x02, 0x44, 0x7b, 0xe9, 0x6d, 0x10, 0xf3, 0xb2, 0xc9, 0x5a, 0x7e, 0x88,
    0x11, 0xd0, 0x64, 0x7f, 0x2b, 0x93, 0xc8, 0xe5, 0xfa, 0x07, 0x36, 0x5d, 0x4c, 0x9e, 0x28, 0xb1,
];

const MAC_KEY: [u8; 32] = [
    0x5e, 0x20, 0xb7, 0x9c, 0x14, 0xd8, 0xf3, 0x6a, 0x81, 0xe7, 0x40, 0x9b, 0xcd, 0x52, 0xff, 0x03,
    0x76, 0x8a, 0x1e, 0x95, 0xc6, 0xb0, 0xd4, 0x2f, 0x39, 0xe8, 0x57, 0x1a, 0x6c, 0xf3, 0x0d, 0x84,
];

const SALT: [u8; 8] = [0x9b, 0x4e, 0x0d, 0x72, 0xf1, 0x86, 0x3a, 0xc5];

const PASSWORD: &str = "correct horse";

// The keys that a file opens to, or why it doesn't.
fn opened(alloc: Global, file: &[u8], password: &str) -> Result<([u8; 32], [u8; 32]), KeyFileErr> {
    let keys = read(alloc, file, password.as_bytes())?;
    Ok((keys.encryption_key().bytes(), keys.mac_key().bytes()))
}

// A file that opens to the keys above.
struct Accepted {
    what: &'static str,
    file: &'static str,
}

static ACCEPTED: [Accepted; 10] = [
    Accepted {
        what: "as Python writes it",
        file: r#"{"version": 999, "scryptSalt": "m04NcvGGOsU=", "scryptCostParam": 1024, "scryptBlockSize": 8, "primaryMasterKey": "HYo/8bEmOXSwMg498CHJtQUcin0yuszjCfmSLM7yprVQSWw55QaBfQ==", "hmacMasterKey": "0YbZ0ojdcgIFThokb+FqO0j9r5LOT42YNAyhCX0VWerfZ3XcjAPosA==", "versionMac": "eBhOlPYTTJK3BMkeWdHQ6ESkTPxQ+DAss6qFa09EEOY="}"#,
    },
    Accepted {
        what: "a cost of 32768",
        file: r#"{"version": 999, "scryptSalt": "m04NcvGGOsU=", "scryptCostParam": 32768, "scryptBlockSize": 8, "primaryMasterKey": "mPyfBoBGW0x/xydNW7ip4fYSs20XjAgrsl9951eh+qpuEz3fmi8vyA==", "hmacMasterKey": "ZhF8ybjL9mqBtwltrCvRFn6DdbwMmcUqFWEgR/prCY+6scYMpMzdqw==", "versionMac": "eBhOlPYTTJK3BMkeWdHQ6ESkTPxQ+DAss6qFa09EEOY="}"#,
    },
    Accepted {
        what: "the least cost and block size",
        file: r#"{"scryptSalt": "m04NcvGGOsU=", "scryptCostParam": 2, "scryptBlockSize": 1, "primaryMasterKey": "4O+4VPAateKJFNRSaQoLWwt6sAn3GlthjnTE3DK813b9c8JYmR1fWA==", "hmacMasterKey": "vwaqhNQxJGzO+fdz+UFhXsPGWmSidgq9SbVEtEtFVj9sZdR6OKoKbQ=="}"#,
    },
    Accepted {
        what: "an empty salt",
        file: r#"{"scryptSalt": "", "scryptCostParam": 1024, "scryptBlockSize": 8, "primaryMasterKey": "HD0agyLgs8OzPy/3XQOM4yK5aCdxFNrtcnjv+CEUYvr2Zuuu6Ut1lQ==", "hmacMasterKey": "zVMTaoIfq/GyV3TMxq2Q6ETyHEgaaepQi0ZNmzySjawpB8YNViGShg=="}"#,
    },
    Accepted {
        what: "another order, and no version",
        file: r#"{"hmacMasterKey":"0YbZ0ojdcgIFThokb+FqO0j9r5LOT42YNAyhCX0VWerfZ3XcjAPosA==","scryptBlockSize":8,"primaryMasterKey":"HYo/8bEmOXSwMg498CHJtQUcin0yuszjCfmSLM7yprVQSWw55QaBfQ==","scryptCostParam":1024,"scryptSalt":"m04NcvGGOsU="}"#,
    },
    Accepted {
        what: "unknown members",
        file: r#"{"a":[1,{"scryptSalt":3}],"scryptSalt":"m04NcvGGOsU=","scryptCostParam":1024,"b":null,"scryptBlockSize":8,"primaryMasterKey":"HYo/8bEmOXSwMg498CHJtQUcin0yuszjCfmSLM7yprVQSWw55QaBfQ==","hmacMasterKey":"0YbZ0ojdcgIFThokb+FqO0j9r5LOT42YNAyhCX0VWerfZ3XcjAPosA==","SCRYPTSALT":""}"#,
    },
    Accepted {
        what: "white space",
        file: "\r\n\t { \"scryptSalt\" :\n\"m04NcvGGOsU=\"\t, \"scryptCostParam\" : 1024\r\n, \"scryptBlockSize\": 8 ,\"primaryMasterKey\" :\"HYo/8bEmOXSwMg498CHJtQUcin0yuszjCfmSLM7yprVQSWw55QaBfQ==\" ,\n\"hmacMasterKey\": \"0YbZ0ojdcgIFThokb+FqO0j9r5LOT42YNAyhCX0VWerfZ3XcjAPosA==\"}\n\n",
    },
    Accepted {
        what: "a wrong version and MAC",
        file: r#"{"version":"x","scryptSalt":"m04NcvGGOsU=","scryptCostParam":1024,"scryptBlockSize":8,"primaryMasterKey":"HYo/8bEmOXSwMg498CHJtQUcin0yuszjCfmSLM7yprVQSWw55QaBfQ==","hmacMasterKey":"0YbZ0ojdcgIFThokb+FqO0j9r5LOT42YNAyhCX0VWerfZ3XcjAPosA==","versionMac":7}"#,
    },
    Accepted {
        what: "numbers with a fraction of 0",
        file: r#"{"scryptSalt":"m04NcvGGOsU=","scryptCostParam":1024.0,"scryptBlockSize":8.0,"primaryMasterKey":"HYo/8bEmOXSwMg498CHJtQUcin0yuszjCfmSLM7yprVQSWw55QaBfQ==","hmacMasterKey":"0YbZ0ojdcgIFThokb+FqO0j9r5LOT42YNAyhCX0VWerfZ3XcjAPosA=="}"#,
    },
    Accepted {
        what: "numbers with an exponent, and an escaped letter",
        file: r#"{"scryptSalt":"m04NcvGGOsU=","scryptCostParam":1.024e3,"scryptBlockSize":80e-1,"primaryMasterKey":"HYo\/8bEmOXSwMg498CHJtQUcin0yuszjCfmSLM7yprVQSWw55QaBfQ==","\u0068macMasterKey":"0YbZ0ojdcgIFThokb+FqO0j9r5LOT42YNAyhCX0VWerfZ3XcjAPosA=="}"#,
    },
];

#[test]
fn files_of_another_program_are_read(rt: HostRuntime) -> Result<(), Fail> {
    for row in &ACCEPTED {
        let keys = opened(rt.alloc(), row.file.as_bytes(), PASSWORD);
        assert_eq!(rt; keys, Ok((ENCRYPTION_KEY, MAC_KEY)), "{}", row.what);
    }
    Ok(())
}

// The members of a file, each as it is spelled.
struct Members {
    salt: &'static str,
    cost: &'static str,
    block_size: &'static str,
    encryption_key: &'static str,
    mac_key: &'static str,
}

const GOOD: Members = Members {
    salt: r#""scryptSalt":"m04NcvGGOsU=""#,
    cost: r#""scryptCostParam":1024"#,
    block_size: r#""scryptBlockSize":8"#,
    encryption_key: r#""primaryMasterKey":"HYo/8bEmOXSwMg498CHJtQUcin0yuszjCfmSLM7yprVQSWw55QaBfQ==""#,
    mac_key: r#""hmacMasterKey":"0YbZ0ojdcgIFThokb+FqO0j9r5LOT42YNAyhCX0VWerfZ3XcjAPosA==""#,
};

fn file(alloc: Global, members: &Members) -> Result<String, AllocError> {
    format!(in alloc;
        "{{{},{},{},{},{}}}",
        members.salt, members.cost, members.block_size, members.encryption_key, members.mac_key
    )
}

// Members of which a file isn't read, and why.
struct Refused {
    what: &'static str,
    members: Members,
    fault: KeyFileErr,
}

static REFUSED: [Refused; 39] = [
    Refused {
        what: "no salt",
        members: Members {
            salt: r#""other":1"#,
            ..GOOD
        },
        fault: KeyFileErr::Field(FieldName::ScryptSalt),
    },
    Refused {
        what: "no cost",
        members: Members {
            cost: r#""other":1"#,
            ..GOOD
        },
        fault: KeyFileErr::Field(FieldName::ScryptCostParam),
    },
    Refused {
        what: "no block size",
        members: Members {
            block_size: r#""other":1"#,
            ..GOOD
        },
        fault: KeyFileErr::Field(FieldName::ScryptBlockSize),
    },
    Refused {
        what: "no encryption key",
        members: Members {
            encryption_key: r#""other":1"#,
            ..GOOD
        },
        fault: KeyFileErr::Field(FieldName::PrimaryMasterKey),
    },
    Refused {
        what: "no MAC key",
        members: Members {
            mac_key: r#""other":1"#,
            ..GOOD
        },
        fault: KeyFileErr::Field(FieldName::HmacMasterKey),
    },
    Refused {
        what: "a number as salt",
        members: Members {
            salt: r#""scryptSalt":1"#,
            ..GOOD
        },
        fault: KeyFileErr::Field(FieldName::ScryptSalt),
    },
    Refused {
        what: "a salt without padding",
        members: Members {
            salt: r#""scryptSalt":"m04NcvGGOsU""#,
            ..GOOD
        },
        fault: KeyFileErr::Field(FieldName::ScryptSalt),
    },
    Refused {
        what: "a salt with a space",
        members: Members {
            salt: r#""scryptSalt":"m04N cvGGOsU=""#,
            ..GOOD
        },
        fault: KeyFileErr::Field(FieldName::ScryptSalt),
    },
    Refused {
        what: "a salt in another alphabet",
        members: Members {
            salt: r#""scryptSalt":"-_8=""#,
            ..GOOD
        },
        fault: KeyFileErr::Field(FieldName::ScryptSalt),
    },
    Refused {
        what: "a text as cost",
        members: Members {
            cost: r#""scryptCostParam":"1024""#,
            ..GOOD
        },
        fault: KeyFileErr::Field(FieldName::ScryptCostParam),
    },
    Refused {
        what: "a cost with a fraction",
        members: Members {
            cost: r#""scryptCostParam":1024.5"#,
            ..GOOD
        },
        fault: KeyFileErr::Field(FieldName::ScryptCostParam),
    },
    Refused {
        what: "a negative cost",
        members: Members {
            cost: r#""scryptCostParam":-1024"#,
            ..GOOD
        },
        fault: KeyFileErr::Field(FieldName::ScryptCostParam),
    },
    Refused {
        what: "a cost of 2^64",
        members: Members {
            cost: r#""scryptCostParam":18446744073709551616"#,
            ..GOOD
        },
        fault: KeyFileErr::Field(FieldName::ScryptCostParam),
    },
    Refused {
        what: "null as block size",
        members: Members {
            block_size: r#""scryptBlockSize":null"#,
            ..GOOD
        },
        fault: KeyFileErr::Field(FieldName::ScryptBlockSize),
    },
    Refused {
        what: "a block size of 1/2",
        members: Members {
            block_size: r#""scryptBlockSize":0.5"#,
            ..GOOD
        },
        fault: KeyFileErr::Field(FieldName::ScryptBlockSize),
    },
    Refused {
        what: "an encryption key in hexadecimal",
        members: Members {
            encryption_key: r#""primaryMasterKey":"1d8a3ff1b1263974b0320e3df021c9b5""#,
            ..GOOD
        },
        fault: KeyFileErr::Field(FieldName::PrimaryMasterKey),
    },
    Refused {
        what: "an encryption key of 39 bytes",
        members: Members {
            encryption_key: r#""primaryMasterKey":"HYo/8bEmOXSwMg498CHJtQUcin0yuszjCfmSLM7yprVQSWw55QaB""#,
            ..GOOD
        },
        fault: KeyFileErr::Field(FieldName::PrimaryMasterKey),
    },
    Refused {
        what: "an encryption key of 41 bytes",
        members: Members {
            encryption_key: r#""primaryMasterKey":"HYo/8bEmOXSwMg498CHJtQUcin0yuszjCfmSLM7yprVQSWw55QaBfQA=""#,
            ..GOOD
        },
        fault: KeyFileErr::Field(FieldName::PrimaryMasterKey),
    },
    Refused {
        what: "a list as MAC key",
        members: Members {
            mac_key: r#""hmacMasterKey":[]"#,
            ..GOOD
        },
        fault: KeyFileErr::Field(FieldName::HmacMasterKey),
    },
    Refused {
        what: "a MAC key of 39 bytes",
        members: Members {
            mac_key: r#""hmacMasterKey":"0YbZ0ojdcgIFThokb+FqO0j9r5LOT42YNAyhCX0VWerfZ3XcjAPo""#,
            ..GOOD
        },
        fault: KeyFileErr::Field(FieldName::HmacMasterKey),
    },
    Refused {
        what: "a MAC key of 41 bytes",
        members: Members {
            mac_key: r#""hmacMasterKey":"0YbZ0ojdcgIFThokb+FqO0j9r5LOT42YNAyhCX0VWerfZ3XcjAPosAA=""#,
            ..GOOD
        },
        fault: KeyFileErr::Field(FieldName::HmacMasterKey),
    },
    Refused {
        what: "no base64 as MAC key",
        members: Members {
            mac_key: r#""hmacMasterKey":"0YbZ0ojdcgIFThokb+FqO0j9r5LOT42YNAyhCX0VWerfZ3XcjAPosA*=""#,
            ..GOOD
        },
        fault: KeyFileErr::Field(FieldName::HmacMasterKey),
    },
    Refused {
        what: "a cost of 3",
        members: Members {
            cost: r#""scryptCostParam":3"#,
            ..GOOD
        },
        fault: KeyFileErr::Cost,
    },
    Refused {
        what: "a cost of 1",
        members: Members {
            cost: r#""scryptCostParam":1"#,
            ..GOOD
        },
        fault: KeyFileErr::Cost,
    },
    Refused {
        what: "a cost of 0",
        members: Members {
            cost: r#""scryptCostParam":0"#,
            ..GOOD
        },
        fault: KeyFileErr::Cost,
    },
    Refused {
        what: "a block size of 0",
        members: Members {
            block_size: r#""scryptBlockSize":0"#,
            ..GOOD
        },
        fault: KeyFileErr::Cost,
    },
    Refused {
        what: "a table of 2^31 bytes",
        members: Members {
            cost: r#""scryptCostParam":1048576"#,
            block_size: r#""scryptBlockSize":16"#,
            ..GOOD
        },
        fault: KeyFileErr::Cost,
    },
    Refused {
        what: "the greatest block size",
        members: Members {
            block_size: r#""scryptBlockSize":18446744073709551615"#,
            ..GOOD
        },
        fault: KeyFileErr::Cost,
    },
    Refused {
        what: "one bit of the salt",
        members: Members {
            salt: r#""scryptSalt":"m04NcvGGOkU=""#,
            ..GOOD
        },
        fault: KeyFileErr::WrongPassword,
    },
    Refused {
        what: "one bit of the encryption key",
        members: Members {
            encryption_key: r#""primaryMasterKey":"HYo/8bEmOXSwMg498CHJtQUUin0yuszjCfmSLM7yprVQSWw55QaBfQ==""#,
            ..GOOD
        },
        fault: KeyFileErr::WrongPassword,
    },
    Refused {
        what: "one bit of the MAC key",
        members: Members {
            mac_key: r#""hmacMasterKey":"0IbZ0ojdcgIFThokb+FqO0j9r5LOT42YNAyhCX0VWerfZ3XcjAPosA==""#,
            ..GOOD
        },
        fault: KeyFileErr::WrongPassword,
    },
    Refused {
        what: "another cost",
        members: Members {
            cost: r#""scryptCostParam":2048"#,
            ..GOOD
        },
        fault: KeyFileErr::WrongPassword,
    },
    Refused {
        what: "another block size",
        members: Members {
            block_size: r#""scryptBlockSize":7"#,
            ..GOOD
        },
        fault: KeyFileErr::WrongPassword,
    },
    Refused {
        what: "neither salt nor cost",
        members: Members {
            salt: r#""other":1"#,
            cost: r#""other":1"#,
            ..GOOD
        },
        fault: KeyFileErr::Field(FieldName::ScryptSalt),
    },
    Refused {
        what: "neither cost nor block size",
        members: Members {
            cost: r#""other":1"#,
            block_size: r#""other":1"#,
            ..GOOD
        },
        fault: KeyFileErr::Field(FieldName::ScryptCostParam),
    },
    Refused {
        what: "neither block size nor encryption key",
        members: Members {
            block_size: r#""other":1"#,
            encryption_key: r#""other":1"#,
            ..GOOD
        },
        fault: KeyFileErr::Field(FieldName::ScryptBlockSize),
    },
    Refused {
        what: "neither key",
        members: Members {
            encryption_key: r#""other":1"#,
            mac_key: r#""other":1"#,
            ..GOOD
        },
        fault: KeyFileErr::Field(FieldName::PrimaryMasterKey),
    },
    Refused {
        what: "a cost of 3, and no MAC key",
        members: Members {
            cost: r#""scryptCostParam":3"#,
            mac_key: r#""other":1"#,
            ..GOOD
        },
        fault: KeyFileErr::Field(FieldName::HmacMasterKey),
    },
    Refused {
        what: "a cost of 3, and one bit of the encryption key",
        members: Members {
            cost: r#""scryptCostParam":3"#,
            encryption_key: r#""primaryMasterKey":"HYo/8bEmOXSwMg498CHJtQUUin0yuszjCfmSLM7yprVQSWw55QaBfQ==""#,
            ..GOOD
        },
        fault: KeyFileErr::Cost,
    },
];

#[test]
fn the_first_fault_is_told(rt: HostRuntime) -> Result<(), Fail> {
    for row in &REFUSED {
        let file = file(rt.alloc(), &row.members)?;
        let keys = opened(rt.alloc(), file.as_bytes(), PASSWORD);
        assert_eq!(rt; keys, Err(row.fault), "{}", row.what);
    }
    Ok(())
}

#[test]
fn another_password_is_refused(rt: HostRuntime) -> Result<(), Fail> {
    let file = file(rt.alloc(), &GOOD)?;
    for password in [
        "correct horsf",
        "Correct horse",
        "correct hors",
        "correct horse ",
        "",
    ] {
        let keys = opened(rt.alloc(), file.as_bytes(), password);
        assert_eq!(rt; keys, Err(KeyFileErr::WrongPassword), "{password}");
    }
    Ok(())
}

// So many bytes of one value.
fn repeated(alloc: Global, byte: u8, len: usize) -> Result<Vec<u8>, AllocError> {
    let mut bytes = Vec::new(alloc);
    for _ in 0..len {
        bytes.push(byte)?;
    }
    Ok(bytes)
}

#[test]
fn other_files_are_not_json(rt: HostRuntime) -> Result<(), Fail> {
    for file in [
        &b""[..],
        b"[]",
        b"\xff",
        b"{",
        b"null",
        b"{\"a\":\"\xff\"}",
        b"{} {}",
    ] {
        let keys = opened(rt.alloc(), file, PASSWORD);
        assert_eq!(rt; keys, Err(KeyFileErr::NotJson));
    }
    let nested = repeated(rt.alloc(), b'[', 200)?;
    assert_eq!(rt;
        opened(rt.alloc(), &nested, PASSWORD),
        Err(KeyFileErr::NotJson)
    );
    Ok(())
}

// A file with so much white space after it that it has `len` bytes.
fn filled(alloc: Global, file: &str, len: usize) -> Result<Vec<u8>, AllocError> {
    let mut bytes = Vec::from_slice(alloc, file.as_bytes())?;
    for _ in file.len()..len {
        bytes.push(b'\n')?;
    }
    Ok(bytes)
}

#[test]
fn a_file_has_at_most_65536_bytes(rt: HostRuntime) -> Result<(), Fail> {
    let bytes = filled(rt.alloc(), ACCEPTED[0].file, 65536)?;
    assert!(rt; opened(rt.alloc(), &bytes, PASSWORD).is_ok());
    let bytes = filled(rt.alloc(), ACCEPTED[0].file, 65537)?;
    assert_eq!(rt;
        opened(rt.alloc(), &bytes, PASSWORD),
        Err(KeyFileErr::TooLong(65537))
    );
    let bytes = filled(rt.alloc(), "[", 65537)?;
    assert_eq!(rt;
        opened(rt.alloc(), &bytes, PASSWORD),
        Err(KeyFileErr::TooLong(65537))
    );
    Ok(())
}

// A file whose salt is 1,023 bytes of zeros and what `end` encodes.
fn long_salted(alloc: Global, end: &str) -> Result<String, AllocError> {
    let mut file = String::from_str(alloc, r#"{"scryptSalt":""#)?;
    for _ in 0..1364 {
        file.push('A')?;
    }
    file.push_str(end)?;
    file.push_str(
        r#"","scryptCostParam":1024,"scryptBlockSize":8,"primaryMasterKey":"JqyHnMdT479zVqt5riisTZPkQCTFF7JkJVcWadEUmIYd+SPT2eYYkw==","hmacMasterKey":"ygxPd4Wgu2MZJBKn60u5Riopfs7pU+zmZ5/st6eTeKJHZFgtqp/pTA=="}"#,
    )?;
    Ok(file)
}

#[test]
fn a_salt_has_at_most_1024_bytes(rt: HostRuntime) -> Result<(), Fail> {
    let file = long_salted(rt.alloc(), "AA==")?;
    let keys = opened(rt.alloc(), file.as_bytes(), PASSWORD);
    assert_eq!(rt; keys, Ok((ENCRYPTION_KEY, MAC_KEY)));
    let file = long_salted(rt.alloc(), "AAA=")?;
    let keys = opened(rt.alloc(), file.as_bytes(), PASSWORD);
    assert_eq!(rt; keys, Err(KeyFileErr::Field(FieldName::ScryptSalt)));
    Ok(())
}

#[test]
fn what_is_written_is_what_another_program_writes(rt: HostRuntime) -> Result<(), Fail> {
    let keys = VaultKeys::new(&ENCRYPTION_KEY, &MAC_KEY);
    let written = write(rt.alloc(), &keys, PASSWORD.as_bytes(), &SALT)?;
    let file =
        r#"{"hmacMasterKey":"ZhF8ybjL9mqBtwltrCvRFn6DdbwMmcUqFWEgR/prCY+6scYMpMzdqw==","primaryMasterKey":"mPyfBoBGW0x/xydNW7ip4fYSs20XjAgrsl9951eh+qpuEz3fmi8vyA==","scryptBlockSize":8,"scryptCostParam":32768,"scryptSalt":"m04NcvGGOsU=","version":999,"versionMac":"eBhOlPYTTJK3BMkeWdHQ6ESkTPxQ+DAss6qFa09EEOY="}"#;
    assert!(rt; written.as_slice() == file.as_bytes());
    let keys = opened(rt.alloc(), &written, PASSWORD);
    assert_eq!(rt; keys, Ok((ENCRYPTION_KEY, MAC_KEY)));
    Ok(())
}

#[test]
fn faults_read_as_users_see_them(rt: HostRuntime) -> Result<(), Fail> {
    for (fault, text) in [
        (KeyFileErr::TooLong(65537), "too long 65537"),
        (KeyFileErr::NotJson, "not JSON"),
        (KeyFileErr::Field(FieldName::ScryptSalt), "field scryptSalt"),
        (
            KeyFileErr::Field(FieldName::ScryptCostParam),
            "field scryptCostParam",
        ),
        (
            KeyFileErr::Field(FieldName::ScryptBlockSize),
            "field scryptBlockSize",
        ),
        (
            KeyFileErr::Field(FieldName::PrimaryMasterKey),
            "field primaryMasterKey",
        ),
        (
            KeyFileErr::Field(FieldName::HmacMasterKey),
            "field hmacMasterKey",
        ),
        (KeyFileErr::Cost, "cost"),
        (KeyFileErr::WrongPassword, "wrong password"),
        (KeyFileErr::Memory, "out of memory"),
    ] {
        let shown = format!(in rt.alloc(); "{fault}")?;
        assert_eq!(rt; shown.as_str(), text);
    }
    Ok(())
}

// The bytes of the password in a secret.
fn password_bytes(alloc: Global, secret: &[u8]) -> Result<Vec<u8>, PasswordErr> {
    Ok(password(alloc, secret)?.into_bytes())
}

#[test]
fn a_password_is_the_first_line_in_nfc(rt: HostRuntime) -> Result<(), Fail> {
    for (secret, want) in [
        (&b"correct horse\n"[..], &b"correct horse"[..]),
        (b"correct horse", b"correct horse"),
        (b" a\tb \r\nsecond\n", b" a\tb \r"),
        (b"a\n\xff", b"a"),
        (b"e\xcc\x81\n", b"\xc3\xa9"),
        (b"\xc3\xa9", b"\xc3\xa9"),
        (b"\xe2\x84\xab", b"\xc3\x85"),
        (b"\xe1\x84\x92\xe1\x85\xa1\xe1\x86\xab\n", b"\xed\x95\x9c"),
    ] {
        let bytes = password_bytes(rt.alloc(), secret).ok();
        let bytes = bytes.as_ref().map(|bytes| bytes.as_slice());
        assert_eq!(rt; bytes, Some(want));
    }
    for secret in [
        &b""[..],
        b"\n",
        b"\nsecond",
        b"\xff",
        b"a\xc3\nb",
        b"\xed\xa0\x80",
    ] {
        let refused = password_bytes(rt.alloc(), secret).err();
        assert_eq!(rt; refused, Some(PasswordErr::BadSecret));
    }
    Ok(())
}

#[test]
fn a_password_has_at_most_1024_bytes(rt: HostRuntime) -> Result<(), Fail> {
    let line = repeated(rt.alloc(), b'x', 1024)?;
    let bytes = password_bytes(rt.alloc(), &line).ok();
    assert_eq!(rt; bytes.as_ref().map(|bytes| bytes.len()), Some(1024));
    let line = repeated(rt.alloc(), b'x', 1025)?;
    let refused = password_bytes(rt.alloc(), &line).err();
    assert_eq!(rt; refused, Some(PasswordErr::BadSecret));
    Ok(())
}
