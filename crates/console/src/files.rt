// Files replaced whole.
use std::alloc::Global;
use std::fs::{OpenFile, OpenOptions};
use std::io::Write;
use std::rt::Files;
use std::{fs, io};

pub(crate) fn is_symlink<R: Files>(files: &R, path: &str) -> bool {
    fs::symlink_metadata(files, path).is_ok_and(|metadata| metadata.is_symlink())
}

// The copy has the permission bits of the old file.
fn write_beside<R: Files>(files: &R, path: &str, beside: &str, bytes: &[u8]) -> io::Result<()> {
    fs::copy(files, path, beside)?;
    let mut file = OpenOptions::new()
        .write(true)
        .truncate(true)
        .open(files, beside)?;
    file.write_all(bytes)?;
    file.sync_all()
}

// A new file is written beside the old one and renamed over it: a reader sees the old bytes or the new.
pub(crate) fn replace<R: Files>(
    files: &R,
    heap: Global,
    path: &str,
    bytes: &[u8],
) -> io::Result<()> {
    let beside = format!(in heap; "{path}.balunsep-new")?;
    if let Err(e) = write_beside(files, path, beside.as_str(), bytes) {
        let _ = fs::remove_file(files, beside.as_str());
        return Err(e);
    }
    fs::rename(files, beside.as_str(), path)
}
