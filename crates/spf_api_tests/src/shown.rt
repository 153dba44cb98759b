//! What calls return, as plain values.

use spf_io::Text;
use std::alloc::Global;
use std::fmt::{Debug, Display};
use std::mem::drop;
use std::process::Abort;

/// Returns whether that is the text of the value.
pub fn has_text<T: Display>(alloc: Global, value: &T, text: &str) -> bool {
    match format!(in alloc; "{value}") {
        Ok(shown) => shown.as_str() == text,
        Err(_) => false,
    }
}

/// Asserts that each value of the table has the text beside it.
pub fn assert_texts<R: Abort, T: Display>(rt: &R, alloc: Global, table: &[(T, &str)]) {
    for (value, text) in table {
        assert!(rt; has_text(alloc, value, text), "{text}");
    }
}

/// Returns whether the value, which is dropped, has that text.
pub fn is_shown<T: Display + Drop>(alloc: Global, value: T, text: &str) -> bool {
    let shown = has_text(alloc, &value, text);
    drop(value);
    shown
}

/// Returns whether that is the text of the value for debugging.
pub fn has_debug_text<T: Debug>(alloc: Global, value: &T, text: &str) -> bool {
    match format!(in alloc; "{value:?}") {
        Ok(shown) => shown.as_str() == text,
        Err(_) => false,
    }
}

/// Returns whether both are there and equal.
pub fn is_same<T: PartialEq + Drop, E: Drop>(found: Result<T, E>, wanted: &T) -> bool {
    match found {
        Ok(found) => found == *wanted,
        Err(_) => false,
    }
}

/// Returns whether there is nothing but an error.
pub fn is_refused<T: Drop, E: Drop>(found: Result<T, E>) -> bool {
    match found {
        Ok(value) => {
            drop(value);
            false
        }
        Err(error) => {
            drop(error);
            true
        }
    }
}

/// Returns whether that is the text of the error for debugging, or `accepted` where there is none.
pub fn is_answered<T: Drop, E: Debug + Drop>(
    alloc: Global,
    found: Result<T, E>,
    answer: &str,
) -> bool {
    match found {
        Ok(value) => {
            drop(value);
            answer == "accepted"
        }
        Err(error) => {
            let answered = has_debug_text(alloc, &error, answer);
            drop(error);
            answered
        }
    }
}

/// Returns a copy of the text.
pub fn copy_of<R: Abort>(rt: &R, alloc: Global, text: &str) -> Text {
    Text::copy_of(alloc, text).expect(rt, "memory")
}
