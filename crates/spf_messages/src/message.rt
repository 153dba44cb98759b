//! Messages whose fields replace one another: of each number the last stands.

ghost use Rattle.std.specs.Prelude.{◌≡◌, Option, Some, None, if◌then◌else◌};
ghost use Rattle.std.specs.Str.{is_utf8};
ghost use Rattle.std.specs.Option.{option_map};
ghost use Rattle.spf_messages.specs.Wire.{WireField, field_of};
ghost use Rattle.spf_messages.specs.Folded.{message_from};

use crate::wire::{Field, read_field};

/// The text of octets in UTF-8.
pub(crate) fn text(octets: &[u8]) -> Option<&str>
    ensures { option_map (λ t. t.now) result
        ≡ (if is_utf8 octets.now then Some octets.now else None) }
{
    match str::from_utf8(octets) {
        Ok(text) => Some(text),
        Err(_) => None,
    }
}

/// A message that is read field by field.
pub(crate) trait Message<'a>: Copy {
    /// The message itself.
    type Entry;

    ghost entry_of: { Self → Self.Entry };

    ghost with_field: { Self.Entry → WireField → Option Self.Entry };

    /// Returns the message with one more field, and None where that field is not allowed.
    fn with(&self, field: &Field<'a>) -> Option<Self>
        ensures { option_map entry_of result
            ≡ with_field (entry_of self.now) (field_of field.now) };
}

/// Reads the fields of a message, one after another.
pub(crate) fn read_onto<'a, M: Message<'a>>(start: M, bytes: &'a [u8]) -> Option<M>
    ensures { option_map M.entry_of result
        ≡ message_from M.with_field (M.entry_of start) bytes.now }
{
    let mut message = start;
    let mut rest = bytes;
    while !rest.is_empty() {
        let (field, after) = read_field(rest)?;
        message = message.with(&field)?;
        rest = after;
    }
    Some(message)
}
