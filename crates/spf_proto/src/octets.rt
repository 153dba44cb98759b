//! The octets of a message, as far as they have come.

ghost use Rattle.std.specs.Prelude.{◌≡◌, ◌≤◌, length};
ghost use Rattle.std.specs.Option.{option_map};
ghost use Rattle.spf_proto.specs.Body.{total};
ghost use Rattle.spf_proto.specs.Octets.{IsNeed, number_at};

/// The maximum length of a message.
const MAX_MESSAGE: usize = 1 << 24;

/// What a message that has come in part still needs.
#[derive(Clone, Copy, PartialEq, Eq)]
pub(crate) enum Needed {
    /// At least this many octets.
    Octets(usize),
    /// Nothing: it is whole.
    Nothing,
    /// No octets make a message of it.
    Bad,
}

/// Reads a length: four octets, big-endian.
#[tactic(auto, unfolding(crate::specs::Octets::number_at))]
fn read_length(bytes: &[u8]) -> Option<(usize, &[u8])>
    ensures { option_map (λ x. (x.0, x.1.now)) result ≡ number_at bytes.now }
{
    match bytes {
        [a, b, c, d, rest @ ..] => Some((u32::from_be_bytes([*a, *b, *c, *d]) as usize, rest)),
        _ => None,
    }
}

/// What the octets of a message still need: five up to its length, and then the rest of it.
pub(crate) fn need(got: &[u8]) -> Needed
    requires { length got.now ≤ total got.now }
    ensures { IsNeed got.now result }
{
    let Some((flag, rest)) = got.split_first() else {
        return Needed::Octets(5);
    };
    if *flag != 0 {
        return Needed::Bad;
    }
    let Some((length, octets)) = read_length(rest) else {
        return Needed::Octets(4usize.saturating_sub(rest.len()));
    };
    if length > MAX_MESSAGE {
        return Needed::Bad;
    }
    if octets.len() < length {
        return Needed::Octets(length - octets.len());
    }
    Needed::Nothing
}
