//! Padding and priority (RFC 9113, sections 6.1 and 6.2).

ghost use Rattle.std.specs.Prelude.{◌≡◌};
ghost use Rattle.std.specs.Option.{option_map};
ghost use Rattle.spf_http2.specs.Contents.{unpadded, without_priority};

/// The length of a priority: the stream dependency and the weight.
const PRIORITY_LENGTH: usize = 5;

/// What stands between the octet that says how much padding there is and that padding.
pub(crate) fn without_padding(padded: bool, payload: &[u8]) -> Option<&[u8]>
    ensures { option_map (λ x. x.now) result ≡ unpadded padded payload.now }
{
    if !padded {
        return Some(payload);
    }
    let (padding, rest) = payload.split_first()?;
    let padding = *padding as usize;
    if padding > rest.len() {
        return None;
    }
    Some(&rest[..rest.len() - padding])
}

/// What stands behind the priority, where there is one.
pub(crate) fn behind_priority(has_priority: bool, octets: &[u8]) -> Option<&[u8]>
    ensures { option_map (λ x. x.now) result ≡ without_priority has_priority octets.now }
{
    if !has_priority {
        return Some(octets);
    }
    octets.get(PRIORITY_LENGTH..)
}
