//! What a step does to the note of its pass.

use flow_parts::Fragment;

/// What a step does to the note of its pass.
#[derive(Clone, Copy, Debug)]
pub enum CacheAct {
    /// The first fragment is put in, and the second is handed out, or none.
    Puts(Fragment, Option<Fragment>),
    /// This entry is seen.
    Sees(Fragment),
}
