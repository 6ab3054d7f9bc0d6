//! What ends the filling of a window.

/// Why a window takes no more bytes. The first that holds, in this order, is the answer.
#[derive(Clone, Copy, Debug, PartialEq, Eq)]
pub enum FillEnd {
    /// As many bytes were taken as the call allows.
    Spent,
    /// The window is full.
    Full,
    /// The source is at its end.
    Ended,
}
