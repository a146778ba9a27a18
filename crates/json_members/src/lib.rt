//! The objects of JSON (RFC 8259) and their members: texts, and integers however they are written.
//!
//! ```
//! let object = Object::read(alloc, br#"{"alg":"HS256","format":8.0}"#)?;
//! assert!(object.text("alg") == Some("HS256"));
//! assert_eq!(object.integer("format"), Some(8));
//! ```
//!
//! A number without a fraction and an exponent is itself if it is from -2^63 to 2^64 - 1; every other number is rounded to the
//! nearest binary64, as Cryptomator's own reader does, so `8.0000000000000001` is 8. A text with a number that is past binary64
//! (`1e400`) or with an unpaired surrogate (`"\ud800"`), in whatever member, isn't read, though RFC 8259's grammar has it.
#![tactic(auto)]

ghost use Rattle.std.specs.Prelude.{◌≡◌, ◌&&◌, Some, None, IfOk, IsErrOf, option_map};
ghost use Rattle.serde_json.specs.Data.{float};
ghost use Rattle.serde_json.specs.Read.{read as value_of};
ghost use Rattle.serde_json.specs.View.{number_view, view as data_of};
ghost use Rattle.json_members.specs.Members.{object_of, text_at, integer_at, integer_of};

use serde_json::{Number, Value};
use std::alloc::Global;
use std::marker::Model;
use std::num::{nearest_u64_to_f64, saturating_f64_to_u64};
use std::str;
use thiserror::Error;

// 2^64
const INTEGER_END: f64 = 18446744073709551616.0;

/// Why bytes are no JSON object.
#[derive(Clone, Copy, Debug, PartialEq, Eq, Error)]
pub enum ObjectErr {
    /// The bytes aren't UTF-8, or no JSON text (RFC 8259), or nest more than 127 deep, or have a number past binary64 or an
    /// unpaired surrogate somewhere, or the value is no object.
    #[error("not a JSON object")]
    NotObject,
    /// Memory ran out.
    #[error("out of memory")]
    Memory,
}

/// A JSON object. Clauses see its value.
#[derive(Drop)]
pub struct Object {
    value: Value,
}

impl Model for Object {
    ghost use Rattle.serde_json.specs.Data.{Data};
    ghost use Rattle.serde_json.specs.View.{view as data_of};
    ghost use Rattle.json_members.specs.Stored.{data_code};

    ghost Value = { Data };

    ghost coded = { data_code };

    ghost view = { λ o. data_of o.value };
}

impl Object {
    /// The object that `bytes` are as JSON (RFC 8259) in UTF-8. If a name is repeated, the last member counts (section 4).
    /// `ObjectErr` gives each error's cause.
    pub fn read(alloc: Global, bytes: &[u8]) -> Result<Object, ObjectErr>
        ensures object { IfOk result (λ o. object_of bytes.now ≡ Some o) }
        ensures none { IsErrOf result ObjectErr.NotObject → object_of bytes.now ≡ None }
    {
        let Ok(text) = str::from_utf8(bytes) else {
            return Err(ObjectErr::NotObject);
        };
        let value = parse(alloc, text)?;
        if value.is_object() {
            Ok(Object { value })
        } else {
            Err(ObjectErr::NotObject)
        }
    }

    /// The text of the member of this name, if it is one.
    pub fn text(&self, name: &str) -> Option<&str>
        ensures { option_map (λ t. t.now) result ≡ text_at name.now self.now }
    {
        self.value.get(name)?.as_str()
    }

    /// The integer from 0 to 2^64 - 1 of the member of this name, if it is one, however it is written (8, 8.0, 80e-1). A number with a
    /// fraction or an exponent is rounded to the nearest binary64 first (RFC 8259, section 6), and so is an integer of 2^64 and more,
    /// which is then none.
    pub fn integer(&self, name: &str) -> Option<u64>
        ensures { result ≡ integer_at name.now self.now }
    {
        integer_of(self.value.get(name)?.as_number()?)
    }
}

// The value that a text is.
fn parse(alloc: Global, text: &str) -> Result<Value, ObjectErr>
    ensures value { IfOk result (λ v. value_of text.now ≡ Some (data_of v)) }
    ensures none { IsErrOf result ObjectErr.NotObject → value_of text.now ≡ None }
{
    match Value::from_str(alloc, text) {
        Ok(value) => Ok(value),
        Err(e) if e.is_memory() => Err(ObjectErr::Memory),
        Err(_) => Err(ObjectErr::NotObject),
    }
}

// The integer from 0 to 2^64 - 1 that a number is, if it is one.
fn integer_of(number: &Number) -> Option<u64>
    ensures { result ≡ integer_of (number_view number.now) }
{
    if number.is_f64() {
        whole(number.as_f64()?)
    } else {
        number.as_u64()
    }
}

// The integer from 0 to 2^64 - 1 that a float equals, if it is one.
fn whole(x: f64) -> Option<u64>
    ensures { result ≡ integer_of (float x) }
{
    let integer = saturating_f64_to_u64(x);
    if x < INTEGER_END && x == nearest_u64_to_f64(integer) {
        Some(integer)
    } else {
        None
    }
}
