//! A capture that is read from a source in windows, before anything is done with its records.
//!
//! A [`Window`] has some bytes of a source, in memory that is taken once; what is left in it moves to its front before
//! it is filled again. A [`CaptureInput`] is a window, how many bytes were taken of its source, and how many may come
//! at most. [`CaptureInput::begin`] reads the first window and its file header, [`CaptureInput::fill`] reads on behind
//! what the window kept. Where a window is damaged, [`CaptureInput::refusal`] reads the source to its end first, so
//! that each [`MeterFault`] is the first that applies. A [`Reading`] does all this part by part, and gives each
//! [`Part`] with the index of its records.
//!
//! What is done with the records of a part is up to the caller. `specs/Places.antt` says how far a file was read in
//! windows.
#![tactic(auto)]

mod fault;
mod fill_end;
mod input;
mod part;
mod reading;
mod window;
mod windows;

pub use fault::MeterFault;
pub use fill_end::FillEnd;
pub use input::CaptureInput;
pub use no_memory::NoMemory;
pub use part::Part;
pub use reading::Reading;
pub use window::Window;
