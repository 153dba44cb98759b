//! Open files that a disk writes to.

ghost use Rattle.std.specs.Prelude.{List, Option};
ghost use Rattle.spf_disk.specs.Calls.{FileCall, OneMore};
ghost use Rattle.spf_disk.specs.Calls.FileCall.{Write, Cut, Sync};

use crate::disk::HelperFile;
use std::io;

/// The gates and the two files that hold an entry each, open for writing.
pub trait WritableFiles {
    // What was called, the newest last, where that is known.
    ghost calls: { Self → Option (List FileCall) };

    /// Writes all the bytes from `at` on.
    fn write_at(&mut self, file: HelperFile, at: u64, bytes: &[u8]) -> io::Result<()>
        ensures { OneMore (calls self.old) (calls self.new) (Write file at bytes.now) };

    /// Cuts the file down to its first `count` octets.
    fn cut(&mut self, file: HelperFile, count: u64) -> io::Result<()>
        ensures { OneMore (calls self.old) (calls self.new) (Cut file count) };

    /// Syncs the file.
    fn sync(&mut self, file: HelperFile) -> io::Result<()>
        ensures { OneMore (calls self.old) (calls self.new) (Sync file) };
}
