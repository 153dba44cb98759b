//! The frame header (RFC 9113, section 4.1).

ghost use Rattle.std.specs.Prelude.{◌≡◌, ◌<◌, ◌^◌, ◌++◌, drop, IfSome};
ghost use Rattle.spf_http2.specs.Frames.{header_at, header_text, stream_of, IsHeader};

/// The maximum length of a payload: the initial value of SETTINGS_MAX_FRAME_SIZE.
pub const MAX_PAYLOAD: u32 = 1 << 14;

/// The length of a header.
pub(crate) const HEADER_LENGTH: usize = 9;

/// The first nine octets of a frame.
#[derive(Clone, Copy, Debug, PartialEq, Eq)]
pub struct FrameHeader {
    /// The length of the payload.
    pub length: u32,
    pub kind: u8,
    pub flags: u8,
    /// The reserved bit, which is ignored, and the stream identifier.
    pub word: u32,
}

impl FrameHeader {
    /// Returns the stream identifier.
    pub fn stream(&self) -> u32
        ensures { result ≡ stream_of self.now }
    {
        let word = self.word;
        word % (1 << 31)
    }
}

/// The octets of a header.
pub(crate) fn header_octets(header: &FrameHeader) -> [u8; 9]
    requires { header.now.length < 2 ^ 24 }
    ensures { result ≡ header_text header.now }
{
    let [_, a, b, c] = header.length.to_be_bytes();
    let [d, e, f, g] = header.word.to_be_bytes();
    [a, b, c, header.kind, header.flags, d, e, f, g]
}

/// The header at the start of the bytes, where it has come.
pub(crate) fn read_header(bytes: &[u8]) -> Option<FrameHeader>
    ensures exact { result ≡ header_at bytes.now }
    ensures text { IfSome result (λ h. bytes.now ≡ header_text h ++ drop 9 bytes.now) }
    ensures fits { IfSome result (λ h. IsHeader h) }
{
    match bytes {
        [a, b, c, kind, flags, d, e, f, g, ..] => Some(FrameHeader {
            length: u32::from_be_bytes([0, *a, *b, *c]),
            kind: *kind,
            flags: *flags,
            word: u32::from_be_bytes([*d, *e, *f, *g]),
        }),
        _ => None,
    }
}
