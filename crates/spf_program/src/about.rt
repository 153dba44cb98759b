//! What a program says of itself: its help, and its version.

ghost use Rattle.spf_program.specs.Reports.{IsAboutPut};
ghost use Rattle.spf_program.specs.Streams.{side};

use spf_io::Sink;

/// Writes the text to `out`, and returns the exit status: 0, or `failed` where `out` failed, which
/// the line then says on `errors`. A failure of `errors` changes no status.
pub fn put_about<K: Sink, E: Sink>(
    out: &mut K,
    errors: &mut E,
    text: &str,
    failed: u8,
    line: &str,
) -> u8
    ensures { IsAboutPut (side (K.held out.old) (K.failures out.old))
        (side (K.held out.new) (K.failures out.new))
        (side (E.held errors.old) (E.failures errors.old))
        (side (E.held errors.new) (E.failures errors.new)) text.now line.now failed result }
{
    match out.put(text.as_bytes()) {
        Ok(()) => 0,
        Err(_) => {
            let _ = errors.put(line.as_bytes());
            failed
        }
    }
}
