//! Watchers: an operator's view of one open flow of a cache that is being metered through.
//!
//! A meter that answers "what is this flow doing now?" must look into the running cache, while workers put its entries
//! out to make room and use their slots again. A watcher takes one entry and keeps it: it *holds* the flow of a key,
//! *reads* it as often and as slowly as it likes, and *releases* it. What it reads is the entry as it was when it was
//! held, whatever the workers do to the flow meanwhile: they may count on in another slot, or put the flow out and hand
//! its fragment on.
//!
//! A watcher uses a seat of the cache, as a worker does. To find the flow it enters, which pins the epoch, sets its
//! shields on the four slots of the key's set, and checks that it wasn't ejected; then the shields are valid, and it
//! leaves. From then on it holds shields and no pin: workers collect past it, and can't use again the slots under its
//! four shields while it holds them. A pinned watcher would hold up every collection, and would be ejected by the first
//! one that needs room.
//!
//! [`Watcher::hold`] answers that the flow is held, that it is absent, or that the try was lost: three times in one
//! call a worker that needed room ejected the watcher before its shields were valid. It may then call again when it
//! likes. No call waits for anybody or takes memory.
#![tactic(auto)]

mod calls;
mod hold;
mod watcher;

pub use watcher::{Watch, Watcher};
