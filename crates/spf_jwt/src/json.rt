//! JSON texts, as `serde_json` reads them.

ghost use Rattle.std.specs.Prelude.{◌≡◌, ◌↔◌, Some, None, IsTrue, MatchResult};
ghost use Rattle.std.specs.Bool.{MatchBool};
ghost use Rattle.serde_json.specs.Errors.{IsMemory};
ghost use Rattle.serde_json.specs.View.{view, items_view, members_view};
ghost use Rattle.serde_json.specs.Written.{has_float, items_have_float, members_have_float};
ghost use Rattle.spf_jwt.specs.Json.{data_of};
ghost use Rattle.spf_jwt.specs.Errors.{is_memory_json};

use serde_json::{Category, Error, Map, Value};
use spf_api::JsonErrorKind;
use std::alloc::Global;
use std::str;

/// Why no value was read.
#[derive(Clone, Copy)]
pub(crate) enum JsonFault {
    Invalid(JsonErrorKind),
    OutOfMemory,
}

fn fault_of(error: &Error) -> JsonFault
    ensures { IsTrue (is_memory_json result) ↔ IsMemory error.now }
{
    match error.classify() {
        Category::Memory => JsonFault::OutOfMemory,
        Category::Eof => JsonFault::Invalid(JsonErrorKind::Eof),
        _ => JsonFault::Invalid(JsonErrorKind::Syntax),
    }
}

/// The value of a JSON text in UTF-8.
pub(crate) fn read(alloc: Global, bytes: &[u8]) -> Result<Value, JsonFault>
    ensures { MatchResult result (λ v. data_of bytes.now ≡ Some (view v))
        (λ e. MatchBool (is_memory_json e) (Unit {0}) (data_of bytes.now ≡ None)) }
{
    let Ok(text) = str::from_utf8(bytes) else {
        return Err(JsonFault::Invalid(JsonErrorKind::Syntax));
    };
    match Value::from_str(alloc, text) {
        Ok(value) => Ok(value),
        Err(error) => Err(fault_of(&error)),
    }
}

/// Whether a number in the value, at any depth, is not an integer of 64 bits.
#[cycle(holds_float)]
pub(crate) fn holds_float(value: &Value) -> bool
    ensures { result ≡ has_float (view value.now) }
{
    match value {
        Value::Null | Value::Bool(_) | Value::String(_) => false,
        Value::Number(number) => number.is_f64(),
        Value::Array(items) => item_holds_float(items),
        Value::Object(members) => member_holds_float(members),
    }
}

#[cycle(holds_float)]
fn item_holds_float(items: &Vec<Value>) -> bool
    ensures { result ≡ items_have_float (items_view items.now.items) }
{
    for item in items {
        if holds_float(item) {
            return true;
        }
    }
    false
}

#[cycle(holds_float)]
fn member_holds_float(members: &Map<String, Value>) -> bool
    ensures { result ≡ members_have_float (members_view members.now.entries) }
{
    for member in members.values() {
        if holds_float(member) {
            return true;
        }
    }
    false
}
