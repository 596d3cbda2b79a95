//! `make_anew`, which makes the file that a migration writes.
use crate::file_ids::FileId;
use crate::opening::Ports;
use bp_cli::SystemFault;
use std::fs::{File, OpenFile, TryLockError};
use std::io::ErrorKind;
use std::rt::Files;
use std::{fs, io};
use thiserror::Error;

/// Why a new page file is not made, in words.
#[derive(Clone, Copy, Debug, Drop, Error)]
pub(crate) enum NewFileReason<'a> {
    #[error("{0}")]
    System(SystemFault<'a>),
    #[error("{path}: it is no regular file")]
    NoRegularFile { path: &'a str },
    #[error("{path}: it is OLD")]
    IsOld { path: &'a str },
    #[error("{path}: another migration has it")]
    InUse { path: &'a str },
}

impl<'a> NewFileReason<'a> {
    pub(crate) fn of_system(name: &'a str, error: io::Error) -> NewFileReason<'a> {
        NewFileReason::System(SystemFault { name, error })
    }
}

/// Returns true if something is at this path that is no regular file. A link is none.
pub(crate) fn is_no_regular_file<R: Files>(rt: &R, path: &str) -> bool {
    match fs::symlink_metadata(rt, path) {
        Ok(metadata) => !metadata.is_file(),
        Err(_) => false,
    }
}

/// Returns true if the path is still the name of an open file.
fn has_name<R: Files>(rt: &R, file: &R::File, path: &str) -> bool {
    let id = FileId::of(file);
    id.is_some() && id == FileId::named(rt, path)
}

/// Removes the file at a path that an earlier migration left when it was killed. One that another migration writes is
/// locked, and stays; so does `old`.
///
/// Whoever waits for the lock looks at the name again, and so never takes away a file that was made since.
fn remove_stale<'a, R: Files, O: Ports<R>>(
    rt: &R,
    ports: &O,
    path: &'a str,
    old: FileId,
) -> Result<(), NewFileReason<'a>> {
    if is_no_regular_file(rt, path) {
        return Err(NewFileReason::NoRegularFile { path });
    }
    let file = match fs::open(rt, path) {
        Ok(file) => file,
        Err(error) => return Err(NewFileReason::of_system(path, error)),
    };
    if FileId::of(&file) == Some(old) {
        return Err(NewFileReason::IsOld { path });
    }
    match ports.try_lock(&file) {
        Ok(()) => {}
        Err(TryLockError::WouldBlock) => return Err(NewFileReason::InUse { path }),
        Err(TryLockError::Error(error)) => return Err(NewFileReason::of_system(path, error)),
    }
    if !has_name(rt, &file, path) {
        return Err(NewFileReason::InUse { path });
    }
    match fs::remove_file(rt, path) {
        Ok(()) => Ok(()),
        Err(error) => Err(NewFileReason::of_system(path, error)),
    }
}

/// Makes a new file at a path, locked where the system has locks. One that an earlier migration left there is removed.
/// Of two migrations at once at most one gets a file, and none takes away the other's.
pub(crate) fn make_anew<'a, R: Files, O: Ports<R>>(
    rt: &R,
    ports: &O,
    path: &'a str,
    old: FileId,
) -> Result<R::File, NewFileReason<'a>> {
    let made = match File::create_new(rt, path) {
        Err(error) if error.kind() == ErrorKind::AlreadyExists => {
            remove_stale(rt, ports, path, old)?;
            File::create_new(rt, path)
        }
        made => made,
    };
    let file = match made {
        Ok(file) => file,
        Err(error) => return Err(NewFileReason::of_system(path, error)),
    };
    let is_locked = matches!(ports.try_lock(&file), Err(TryLockError::WouldBlock));
    if is_locked || !has_name(rt, &file, path) {
        return Err(NewFileReason::InUse { path });
    }
    Ok(file)
}
