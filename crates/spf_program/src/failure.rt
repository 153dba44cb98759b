//! The line of a failure.

ghost use Rattle.std.specs.Prelude.{◌≡◌, ◌++◌};
ghost use Rattle.spf_io.specs.Outside.{HasCause, PutAppends};
ghost use Rattle.spf_program.specs.Reports.{IsReported, failure_line, number_end};
ghost use Rattle.spf_program.specs.Streams.{side};

use itoa::Buffer;
use spf_io::{Failed, Sink};

/// One piece after another.
fn put_both<E: Sink>(errors: &mut E, first: &[u8], second: &[u8]) -> Result<(), Failed>
    ensures bytes { PutAppends (E.held errors.old) (E.held errors.new) result
        (first.now ++ second.now) }
    ensures cause { HasCause (E.failures errors.old) (E.failures errors.new) result }
{
    errors.put(first)?;
    errors.put(second)
}

/// The number that ends a line, if there is one.
fn put_number<E: Sink>(errors: &mut E, number: Option<u64>) -> Result<(), Failed>
    ensures bytes { PutAppends (E.held errors.old) (E.held errors.new) result (number_end number) }
    ensures cause { HasCause (E.failures errors.old) (E.failures errors.new) result }
{
    match number {
        Some(number) => {
            let mut digits = Buffer::new();
            put_both(errors, digits.format(number).as_bytes(), b"\n")
        }
        None => Ok(()),
    }
}

fn put_message<E: Sink>(errors: &mut E, message: &str, number: Option<u64>) -> Result<(), Failed>
    ensures bytes { PutAppends (E.held errors.old) (E.held errors.new) result
        (message.now ++ number_end number) }
    ensures cause { HasCause (E.failures errors.old) (E.failures errors.new) result }
{
    errors.put(message.as_bytes())?;
    put_number(errors, number)
}

fn put_line<E: Sink>(
    errors: &mut E,
    program: &str,
    message: &str,
    number: Option<u64>,
) -> Result<(), Failed>
    ensures bytes { PutAppends (E.held errors.old) (E.held errors.new) result
        (failure_line program.now message.now number) }
    ensures cause { HasCause (E.failures errors.old) (E.failures errors.new) result }
{
    errors.put(program.as_bytes())?;
    put_message(errors, message, number)
}

/// Writes the line of a failure without allocating: which program failed, what is wrong, and the
/// number that may end it. A failure of `errors` changes nothing.
pub fn report<E: Sink>(errors: &mut E, program: &str, message: &str, number: Option<u64>)
    ensures { IsReported (side (E.held errors.old) (E.failures errors.old))
        (side (E.held errors.new) (E.failures errors.new))
        (failure_line program.now message.now number) }
{
    let _ = put_line(errors, program, message, number);
}
