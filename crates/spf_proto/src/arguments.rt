//! The argument of the program: the moment at which its session begins.

ghost use Rattle.std.specs.Prelude.{◌≡◌, IfSome, IsTrue, int_le, pos, map, string_bytes};
ghost use Rattle.spf_proto.specs.Arguments.{start_in};

use spf_program::moment;

/// The moment that the arguments say: exactly one number.
pub(crate) fn start_of(arguments: &[String]) -> Option<i64>
    ensures value { result ≡ start_in (map string_bytes arguments.now) }
    ensures late { IfSome result (λ m. IsTrue (int_le (pos 0) m)) }
{
    match arguments {
        [text] => moment(text.as_str()),
        _ => None,
    }
}
