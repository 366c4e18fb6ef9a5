//! Files that take the place of others.

use std::alloc::{AllocError, Global};
use std::fs::{self, File};
use std::io;

/// The file that is written before it takes the place of another, and stands beside it.
pub(crate) fn part_of(alloc: Global, path: &str) -> Result<String, AllocError> {
    let mut part = String::from_str(alloc, path)?;
    part.push_str(".part")?;
    Ok(part)
}

/// Puts a file that is written in the place of another. What it held comes to the disk before, so that
/// after a power failure too the place has the old file or the whole new one.
pub(crate) fn put_in_place(
    rt: &HostRuntime,
    written: &File,
    part: &str,
    path: &str,
) -> io::Result<()> {
    written.sync_all()?;
    fs::rename(rt, part, path)
}
