use json_members::{Object, ObjectErr};
use std::test::Fail;

const LARGEST: u64 = 18446744073709551615;

#[test]
fn an_integer_is_read_however_it_is_written(rt: HostRuntime) -> Result<(), Fail> {
    for (text, integer) in [
        (r#"{"n":8}"#, Some(8)),
        (r#"{"n":8.0}"#, Some(8)),
        (r#"{"n":80e-1}"#, Some(8)),
        (r#"{"n":0.8e1}"#, Some(8)),
        (r#"{"n":0}"#, Some(0)),
        (r#"{"n":-0}"#, Some(0)),
        (r#"{"n":-0.0}"#, Some(0)),
        (r#"{"n":4294967296.0}"#, Some(4294967296)),
        (r#"{"n":18446744073709551615}"#, Some(LARGEST)),
        (r#"{"n":18446744073709551616}"#, None),
        (r#"{"n":18446744073709551616.0}"#, None),
        (r#"{"n":8.5}"#, None),
        (r#"{"n":-8}"#, None),
        (r#"{"n":-8.0}"#, None),
        (r#"{"n":1e300}"#, None),
        (r#"{"n":"8"}"#, None),
        (r#"{"n":null}"#, None),
        (r#"{"m":8}"#, None),
        ("{}", None),
        (" {\r\n\t\"m\" : [ ] , \"n\" : 8 } \n", Some(8)),
        (r#"{"n":8,"m":7}"#, Some(8)),
        (r#"{"n":7,"m":1,"n":8}"#, Some(8)),
        (r#"{"n":8,"n":"8"}"#, None),
        (r#"{"n":8.0000000000000001}"#, Some(8)),
        (r#"{"n":9007199254740993.0}"#, Some(9007199254740992)),
    ] {
        let object = Object::read(rt.alloc(), text.as_bytes())?;
        assert_eq!(rt; object.integer("n"), integer, "{text}");
    }
    Ok(())
}

#[test]
fn a_text_is_read_with_its_escapes(rt: HostRuntime) -> Result<(), Fail> {
    for (text, member) in [
        (r#"{"t":"HS256"}"#, Some("HS256")),
        (r#"{"t":""}"#, Some("")),
        (r#"{"\u0074":"\u00e9\n"}"#, Some("\u{e9}\n")),
        (r#"{"t":"a","t":"b"}"#, Some("b")),
        (r#"{"t":8}"#, None),
        (r#"{"t":["a"]}"#, None),
        (r#"{"T":"a"}"#, None),
    ] {
        let object = Object::read(rt.alloc(), text.as_bytes())?;
        assert!(rt; object.text("t") == member, "{text}");
    }
    Ok(())
}

#[test]
fn only_objects_are_read(rt: HostRuntime) -> Result<(), Fail> {
    let rows: [&[u8]; 10] = [
        b"",
        b"[]",
        b"1",
        b"{",
        b"\xff",
        b"{\"a\":\"\xff\"}",
        b"{\"a\":1}x",
        b"{\"a\":1,}",
        b"{\"a\":1e400}",
        b"{\"a\":\"\\ud800\"}",
    ];
    for bytes in rows {
        let read = Object::read(rt.alloc(), bytes);
        assert_eq!(rt; read.err(), Some(ObjectErr::NotObject), "{bytes:?}");
    }
    Ok(())
}

#[test]
fn values_nest_at_most_127_deep(rt: HostRuntime) -> Result<(), Fail> {
    for (arrays, read) in [(1, true), (126, true), (127, false), (200, false)] {
        let mut text = String::from_str(rt.alloc(), r#"{"a":"#)?;
        for _ in 0..arrays {
            text.push('[')?;
        }
        for _ in 0..arrays {
            text.push(']')?;
        }
        text.push('}')?;
        let object = Object::read(rt.alloc(), text.as_bytes());
        assert_eq!(rt; object.is_ok(), read, "{arrays} arrays");
    }
    Ok(())
}
