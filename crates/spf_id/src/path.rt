ghost use Rattle.std.specs.Prelude.{◌≡◌};
ghost use Rattle.std.specs.List.{list_all, slice_split};
ghost use Rattle.spf_id.specs.Rule.{is_slash, is_path_octet, segment_rule, segments_of};
ghost use Rattle.spf_id.specs.Rule.{segments_rule};

use crate::error::SpiffeIdError;
use crate::separator::cut;

fn is_path_char(octet: u8) -> bool
    ensures { result ≡ is_path_octet octet }
{
    octet.is_ascii_alphanumeric() || octet == b'.' || octet == b'-' || octet == b'_'
}

fn is_path_text(octets: &[u8]) -> bool
    ensures { result ≡ list_all is_path_octet octets.now }
{
    octets.iter().all(|octet| is_path_char(*octet))
}

/// Whether a segment of a path breaks a rule, and which. An empty one breaks the rule `empty`.
#[tactic(auto, unfolding(crate::specs::Rule::segment_rule))]
fn check_segment(empty: SpiffeIdError, segment: &[u8]) -> Result<(), SpiffeIdError>
    ensures { result ≡ segment_rule empty segment.now }
{
    if segment.is_empty() {
        return Err(empty);
    }
    if segment == b".".as_slice() || segment == b"..".as_slice() {
        return Err(SpiffeIdError::DotSegment);
    }
    if !is_path_text(segment) {
        return Err(SpiffeIdError::BadPathChar);
    }
    Ok(())
}

/// Whether a segment between slashes breaks a rule, and which is the first.
fn check_segments(segments: &[u8]) -> Result<(), SpiffeIdError>
    ensures { result ≡ segments_rule (slice_split is_slash segments.now) }
{
    let mut rest = segments;
    loop {
        let (segment, after) = cut(b'/', rest);
        match after {
            None => return check_segment(SpiffeIdError::TrailingSlash, segment),
            Some(after) => {
                check_segment(SpiffeIdError::EmptySegment, segment)?;
                rest = after;
            }
        }
    }
}

/// Whether a path, which is empty or begins with a slash, breaks a rule, and which.
pub(crate) fn check_path(path: &[u8]) -> Result<(), SpiffeIdError>
    ensures { result ≡ segments_rule (segments_of path.now) }
{
    match path {
        [] => Ok(()),
        [_, segments @ ..] => check_segments(segments),
    }
}
