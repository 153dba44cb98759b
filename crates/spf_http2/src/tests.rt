//! Frames that are read, one octet a read.

use crate::{Content, FrameBuffer, ReadError, content_of, put_frame, read_frame};
use spf_io::MemSource;
use std::alloc::Global;
use std::test::Fail;

/// Octets, how many frames they begin with, and why there is no further one.
const ROWS: &[(&[u8], usize, Option<ReadError>)] = &[
    (b"", 0, None),
    (b"\0\0\0\x04\x01\0\0\0\0", 1, None),
    (b"\0\0\x02\0\x01\x80\0\0\x01hi", 1, None),
    (b"\0\0\x02\0\x01\0\0\0\x01h", 0, Some(ReadError::CutOff)),
    (b"\0\0\0\x04\x01\0\0\0\0\0\0", 1, Some(ReadError::CutOff)),
    (b"\0\x40\x01\0\x01\0\0\0\x01", 0, Some(ReadError::TooLong)),
];

/// Reads all frames of a source.
fn frames_in(alloc: Global, octets: &[u8]) -> Result<(usize, Option<ReadError>), Fail> {
    let bytes = Vec::from_slice(alloc, octets)?;
    let cuts = vec![in alloc; 1; 64]?;
    let mut source = MemSource::new(bytes, cuts, Vec::new(alloc));
    let mut buffer = FrameBuffer::new(alloc)?;
    for count in 0..64 {
        match read_frame(&mut source, &mut buffer) {
            Ok(Some(_)) => {}
            Ok(None) => return Ok((count, None)),
            Err(e) => return Ok((count, Some(e))),
        }
    }
    Err(Fail::from("too many frames"))
}

#[test]
fn frames_are_read(rt: HostRuntime) -> Result<(), Fail> {
    for &(octets, count, end) in ROWS {
        let (read, stopped) = frames_in(rt.alloc(), octets)?;
        assert_eq!(rt; read, count, "{octets:?}");
        assert_eq!(rt; stopped, end, "{octets:?}");
    }
    Ok(())
}

#[test]
fn a_padded_frame_is_read_back(rt: HostRuntime) -> Result<(), Fail> {
    let mut octets = Vec::new(rt.alloc());
    put_frame(&mut octets, 0, 0x9, 3, b"\x02body\0\0")?;
    let mut source = MemSource::new(octets, Vec::new(rt.alloc()), Vec::new(rt.alloc()));
    let mut buffer = FrameBuffer::new(rt.alloc())?;
    let Ok(Some(header)) = read_frame(&mut source, &mut buffer) else {
        return Err(Fail::from("no frame"));
    };
    let is_body = match content_of(&header, buffer.payload(), 3) {
        Some(
            Content::Data {
                octets,
                ends_stream,
            },
        ) => octets == b"body".as_slice() && ends_stream,
        _ => false,
    };
    assert!(rt; is_body);
    assert!(rt; content_of(&header, buffer.payload(), 1).is_none());
    Ok(())
}
