//! An input that is read in windows.

use crate::window::Window;

/// An input that is read in windows: the bytes that were read last, and how far it was read.
#[derive(Drop)]
pub struct CaptureInput {
    pub window: Window,
    /// How many bytes were taken from the source.
    pub taken: u64,
    /// How many bytes may come at most.
    pub limit: u64,
    /// Whether the source is at its end.
    pub ended: bool,
}
