//! `FileId`, which tells whether two paths lead to the same file.
use std::fs;
use std::fs::{Metadata, OpenFile};
use std::os::unix::fs::MetadataExt;
use std::rt::Files;

/// The identity of a file on this machine. Two files that exist at the same time are the same exactly where these are
/// equal.
#[derive(Clone, Copy, PartialEq, Eq)]
pub(crate) struct FileId {
    device: u64,
    number: u64,
}

impl FileId {
    pub(crate) fn with(metadata: &Metadata) -> FileId {
        FileId {
            device: metadata.dev(),
            number: metadata.ino(),
        }
    }

    /// Returns the identity of an open file, or None where its metadata can't be read.
    pub(crate) fn of<F: OpenFile>(file: &F) -> Option<FileId> {
        match file.metadata() {
            Ok(metadata) => Some(FileId::with(&metadata)),
            Err(_) => None,
        }
    }

    /// Returns the identity of what has this path for its name, which may be a link, or None where its metadata can't be
    /// read.
    pub(crate) fn named<R: Files>(rt: &R, path: &str) -> Option<FileId> {
        match fs::symlink_metadata(rt, path) {
            Ok(metadata) => Some(FileId::with(&metadata)),
            Err(_) => None,
        }
    }

    /// Returns the identity of the file at a path, following links, or None where its metadata can't be read.
    pub(crate) fn at<R: Files>(rt: &R, path: &str) -> Option<FileId> {
        match fs::metadata(rt, path) {
            Ok(metadata) => Some(FileId::with(&metadata)),
            Err(_) => None,
        }
    }
}
