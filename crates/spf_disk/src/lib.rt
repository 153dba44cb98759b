//! Three files on a disk that may crash, and the entries that they hold: the format of an entry,
//! what a reader finds, and how an entry is replaced so that a crash leaves the old or the new one.
//! A disk is in memory, or three files in a folder of the operating system.
#![tactic(auto)]

mod contents;
mod disk;
mod folder_disk;
mod folder_fault;
mod folder_files;
mod generation;
pub mod laws;
mod mem_disk;
mod mem_file;
mod open_error;
mod opening;
mod reader;
mod replace;
mod scanning;
mod slot;
mod writable_files;
mod writer;

pub use disk::{Disk, DiskFailed, HelperFile};
pub use folder_disk::{FilesDisk, FolderDisk};
pub use folder_fault::FolderFault;
pub use folder_files::FolderFiles;
pub use generation::{AuthorityList, Entry, Generation};
pub use mem_disk::MemDisk;
pub use open_error::OpenError;
pub use opening::{Opened, open_files};
pub use reader::read_entry;
pub use replace::replace_entry;
pub use scanning::read_generation;
pub use slot::Slot;
pub use writable_files::WritableFiles;
pub use writer::write_entry;
