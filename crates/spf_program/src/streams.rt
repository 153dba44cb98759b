//! Standard streams of a program that writes lines while it reads: a line is kept while there is
//! input to take, up to 64 KiB, and written before the input is read again. So nothing waits while
//! the input does, and a long input costs few writes.

ghost use Rattle.std.specs.Io.{WritesAtMost};

use spf_io::{OutOfMemory, StdSink, StdSource};
use std::alloc::Global;
use std::cell::{Cell, RefCell};
use std::io::{self, BufReader, BufWriter, Read, Write};

/// How many bytes are read at once, and how many are kept before they are written.
const BUFFER: usize = 1 << 16;

/// An output that is shared by the sink of a program and by its input, which flushes it.
#[derive(Drop)]
pub struct SharedOutput<W: Write + Drop> {
    writer: RefCell<BufWriter<W>>,
    // A write or a flush failed, and from then on all fail.
    has_failed: Cell<bool>,
}

impl<W: Write + Drop> SharedOutput<W> {
    /// Makes the buffer of an output.
    pub fn new(alloc: Global, writer: W) -> Result<SharedOutput<W>, OutOfMemory> {
        match BufWriter::with_capacity(alloc, BUFFER, writer) {
            Ok(writer) => Ok(SharedOutput {
                writer: RefCell::new(writer),
                has_failed: Cell::new(false),
            }),
            Err(_) => Err(OutOfMemory),
        }
    }

    /// A sink whose pieces go to this output.
    pub fn sink(&self) -> StdSink<SharedWriter<'_, W>> {
        StdSink::new(SharedWriter { output: self })
    }

    /// A source over an input, which writes what this output keeps before it reads the input.
    pub fn source<R: Read + Drop>(
        &self,
        alloc: Global,
        input: R,
    ) -> Result<StdSource<BufReader<FlushingReader<'_, R, W>>>, OutOfMemory> {
        let reader = FlushingReader {
            input,
            output: self,
        };
        match BufReader::with_capacity(alloc, BUFFER, reader) {
            Ok(reader) => Ok(StdSource::new(reader)),
            Err(_) => Err(OutOfMemory),
        }
    }

    /// Writes what is kept, and returns whether nothing has failed.
    pub fn flush(&self) -> bool {
        let is_flushed = match self.writer.try_borrow_mut() {
            Ok(mut writer) => writer.flush().is_ok(),
            Err(_) => false,
        };
        if !is_flushed {
            self.has_failed.set(true);
        }
        !self.has_failed.get()
    }

    fn write(&self, piece: &[u8]) -> io::Result<usize>
        ensures { WritesAtMost result piece.now }
    {
        if self.has_failed.get() {
            return Err(failed());
        }
        match self.writer.try_borrow_mut() {
            Ok(mut writer) => writer.write(piece),
            Err(_) => Err(failed()),
        }
    }
}

/// The error of an output that failed before.
fn failed() -> io::Error {
    io::Error::other("the output failed")
}

/// A writer to a shared output.
#[derive(Drop)]
pub struct SharedWriter<'a, W: Write + Drop> {
    output: &'a SharedOutput<W>,
}

impl<W: Write + Drop> Write for SharedWriter<'_, W> {
    fn write(&mut self, piece: &[u8]) -> io::Result<usize> {
        self.output.write(piece)
    }

    fn flush(&mut self) -> io::Result<()> {
        if self.output.flush() {
            return Ok(());
        }
        Err(failed())
    }
}

/// An input before whose reads a shared output is written.
#[derive(Drop)]
pub struct FlushingReader<'a, R, W: Write + Drop> {
    input: R,
    output: &'a SharedOutput<W>,
}

impl<R: Read, W: Write + Drop> Read for FlushingReader<'_, R, W> {
    /// Where the output fails, the input is read all the same: the next piece that is put says so.
    fn read(&mut self, buf: &mut [u8]) -> io::Result<usize> {
        let _ = self.output.flush();
        self.input.read(buf)
    }
}
