//! `Kind`: the keepers of a pool that many threads may share.
use bp_keeper::{GhostImage, ListKeeper, RecordingKeeper, SilentKeeper};
use bp_page::{Bytes, Image};
use std::marker::Send;

/// A keeper whose pool many threads may share: its images, bytes and blanks may go to another thread. The three types
/// name them.
pub trait Kind: ListKeeper<
    SpareImage = <Self as Kind>::SentImage,
    SpareBytes = <Self as Kind>::SentBytes,
    Blank = <Self as Kind>::SentBlank,
>
    + Send {
    type SentImage: Drop + Send;

    type SentBytes: Drop + Send;

    type SentBlank: Drop + Send;
}

impl Kind for RecordingKeeper {
    type SentImage = Image;

    type SentBytes = Bytes;

    type SentBlank = Image;
}

impl Kind for SilentKeeper {
    type SentImage = GhostImage;

    type SentBytes = ();

    type SentBlank = ();
}
