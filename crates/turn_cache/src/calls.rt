//! A fragment is metered.

ghost use Rattle.std.specs.Prelude.{◌≡◌, ◌+◌, ◌*◌, ◌<◌, ◌≤◌, ◌^◌, Some};
ghost use Rattle.flow_key.specs.Key.{set_number};
ghost use Rattle.cache_face.specs.Keeping.{packet_count};
ghost use Rattle.cache_face.specs.Meaning.{IsAnswer};
ghost use Rattle.cache_face.specs.Notes.{note_with};
ghost use Rattle.cache_face.specs.Tries.{HasLost};
ghost use Rattle.turn_cache.specs.Shown.{means_of, shown_of, lost_of, IsOf, IsTryOf};

use crate::cache::{TurnCache, TurnPass};
use cache_face::laws::contents_show;
use cache_face::{How, Metered};
use flow_parts::Fragment;

impl TurnCache {
    /// Puts a fragment in. It waits for nobody and takes no memory.
    pub(crate) fn meter_fragment(&self, pass: &mut TurnPass, part: &Fragment) -> Metered
        requires own { IsOf self.now pass.old }
        requires single { (shown_of pass.old).note.seats ≡ 1 }
        requires octets { part.now.octets < part.now.packets * 2 ^ 24 }
        requires room { packet_count (shown_of pass.old).note.taken + part.now.packets ≤ 2 ^ 32 }
        ensures own { IsOf self.now pass.new }
        ensures note { (shown_of pass.new).note ≡ note_with (shown_of pass.old).note part.now result.out }
        ensures answer { IsAnswer (means_of self.now) (shown_of pass.new) part.now result.how result.out }
        ensures lost { HasLost (IsTryOf (set_number part.now.key self.now.sets)) result.how (lost_of pass.old)
            (lost_of pass.new) }
    {
        let mut metered = Metered {
            how: How::PassedBy,
            out: None,
        };
        self.put_in(pass, part, &mut metered);
        pass.book.put(part, &metered.out);
        metered
    }

    /// Lets a fragment of one packet go by. It makes no operation on a word.
    pub(crate) fn let_by(&self, pass: &mut TurnPass, fragment: &Fragment)
        requires own { IsOf self.now pass.old }
        ensures own { IsOf self.now pass.new }
        ensures note { (shown_of pass.new).note
            ≡ note_with (shown_of pass.old).note fragment.now (Some fragment.now) }
        ensures lost { lost_of pass.new ≡ lost_of pass.old }
    {
        pass.book.put(fragment, &Some(*fragment));
    }
}
