//! Sources, sinks and small values.
ghost use Rattle.std.specs.Prelude.{◌≡◌};

use crate::shown::{has_text, is_same};
use spf_io::{
    Bytes, Failed, List, MemSink, MemSource, OutOfMemory, Sink, Source, StdSink, StdSource, Text,
};
use std::alloc::Global;
use std::io::{self, ErrorKind, Read, Write};
use std::test::Fail;

/// Four octets, of which the first read gives at most one and
/// the second, cut to 0, one too, while the third read fails.
fn source(alloc: Global) -> Result<MemSource, Fail> {
    let bytes = [1, 2, 3, 4].to_vec(alloc)?;
    let cuts = [1, 0].to_vec(alloc)?;
    let failing = [3].to_vec(alloc)?;
    Ok(MemSource::new(bytes, cuts, failing))
}

/// What reads return, and what the buffer then begins with.
const READS: &[(Result<usize, Failed>, u8)] = &[
    (Ok(1), 1),
    (Ok(1), 2),
    (Err(Failed), 2),
    (Ok(2), 3),
    (Ok(0), 3),
];

/// A cut of 0 counts as 1, the third read fails and loses
/// nothing, and after the cuts any number is given.
#[test]
fn memory_source(rt: HostRuntime) -> Result<(), Fail> {
    let mut source = source(rt.alloc())?;
    let mut buf = [0; 8];
    for &(result, first) in READS {
        assert!(rt; source.read(&mut buf) == result);
        assert!(rt; buf[0] == first);
    }
    drop(source);
    assert!(rt; buf[1] == 4);
    Ok(())
}

/// A sink of three octets, whose second put fails.
fn sink(alloc: Global) -> Result<MemSink, Fail> {
    let failing = [2].to_vec(alloc)?;
    Ok(MemSink::new(alloc, 3, failing)?)
}

/// Pieces that are put, and what that returns.
const PUTS: &[(&str, Result<(), Failed>)] = &[
    ("ab", Ok(())),
    ("c", Err(Failed)),
    ("cd", Err(Failed)),
    ("c", Ok(())),
];

/// The second put fails, the third does not fit, and neither leaves anything.
#[test]
fn memory_sink(rt: HostRuntime) -> Result<(), Fail> {
    let mut sink = sink(rt.alloc())?;
    for &(piece, result) in PUTS {
        assert!(rt; sink.put(piece.as_bytes()) == result, "{piece}");
    }
    let held = sink.bytes() == b"abc".as_slice();
    drop(sink);
    assert!(rt; held);
    Ok(())
}

/// A reader that always fails.
#[derive(Drop)]
struct BrokenReader;

impl Read for BrokenReader {
    fn read(&mut self, _buf: &mut [u8]) -> io::Result<usize> {
        Err(io::Error::from(ErrorKind::Other))
    }
}

/// What reads of the octets `abc` return, and what the buffer then holds.
const ADAPTER_READS: &[(Result<usize, Failed>, [u8; 2])] = &[
    (Ok(2), *b"ab"),
    (Ok(1), *b"cb"),
    (Ok(0), *b"cb"),
];

/// The adapter over a reader of std: all bytes pass, and a failure is one.
#[test]
fn reader(rt: HostRuntime) {
    let mut source = StdSource::new(b"abc".as_slice());
    let mut buf = [0; 2];
    for &(result, held) in ADAPTER_READS {
        assert!(rt; source.read(&mut buf) == result);
        assert!(rt; buf == held);
    }
    let mut broken = StdSource::new(BrokenReader);
    assert!(rt; broken.read(&mut buf) == Err(Failed));
}

fn put_into<W: Write + Drop>(writer: W, piece: &[u8]) -> Result<(), Failed> {
    StdSink::new(writer).put(piece)
}

/// The adapter over a writer of std: all bytes pass, and
/// a writer that takes nothing is a failure.
#[test]
fn writer(rt: HostRuntime) {
    let mut written = Vec::new(rt.alloc());
    assert!(rt; put_into(&mut written, b"abc") == Ok(()));
    assert!(rt; written.as_slice() == b"abc".as_slice());
    let mut room = [0; 2];
    assert!(rt; put_into(room.as_mut_slice(), b"abc") == Err(Failed));
    assert!(rt; room == *b"ab");
}

/// Whether what the text is made of makes the same text.
fn is_made_again(alloc: Global, text: Text) -> bool {
    match text.try_clone(alloc) {
        Ok(copy) => Text::new(copy.into_string()) == text,
        Err(_) => false,
    }
}

/// Whether the text is less than the other.
fn is_less(alloc: Global, text: &Text, other: &str) -> Result<bool, OutOfMemory> {
    let other = Text::copy_of(alloc, other)?;
    Ok(*text < other)
}

#[test]
fn texts(rt: HostRuntime) -> Result<(), Fail> {
    let text = Text::copy_of(rt.alloc(), "a")?;
    assert!(rt; is_less(rt.alloc(), &text, "b")?);
    assert!(rt; is_same(text.try_clone(rt.alloc()), &text));
    assert!(rt; is_made_again(rt.alloc(), text));
    Ok(())
}

fn is_other(alloc: Global, bytes: &Bytes, other: &[u8]) -> Result<bool, OutOfMemory> {
    let other = Bytes::copy_of(alloc, other)?;
    Ok(*bytes != other)
}

#[test]
fn bytes(rt: HostRuntime) -> Result<(), Fail> {
    let bytes = Bytes::copy_of(rt.alloc(), b"a")?;
    assert!(rt; is_other(rt.alloc(), &bytes, b"b")?);
    assert!(rt; is_same(bytes.try_clone(rt.alloc()), &bytes));
    assert!(rt; bytes.into_vec().as_slice() == b"a".as_slice());
    Ok(())
}

/// A list of one text.
fn list(alloc: Global) -> Result<List<Text>, OutOfMemory> {
    let text = Text::copy_of(alloc, "a")?;
    let mut texts = Vec::new(alloc);
    texts.push(text)?;
    Ok(List::new(texts))
}

#[test]
fn lists(rt: HostRuntime) -> Result<(), Fail> {
    let first = list(rt.alloc())?;
    assert!(rt; is_same(list(rt.alloc()), &first));
    assert!(rt; first.as_slice().len() == 1);
    assert!(rt; first.into_vec().len() == 1);
    Ok(())
}

#[test]
fn error_texts(rt: HostRuntime) {
    assert!(rt; has_text(rt.alloc(), &OutOfMemory, "out of memory"));
    assert!(rt; has_text(rt.alloc(), &Failed, "failed"));
}
