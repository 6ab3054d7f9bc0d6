//! The two contents of a place, each ten words that show an entry.

ghost use Rattle.std.specs.Prelude.{◌≡◌, ◌↔◌, ◌+◌, ◌<◌, ℕ, [], ◌∷◌, All, IsTrue, MatchOption, None, length};
ghost use Rattle.std.specs.Prelude.{slice_index_or};
ghost use Rattle.std.specs.Bool.{OnTrue, OnFalse};
ghost use Rattle.std.specs.Prelude.{IfNone, IfSome};
ghost use Rattle.flow_key.specs.Key.{words_of};
ghost use Rattle.flow_parts.specs.Parts.{part_words, IsJoined};
ghost use Rattle.flow_parts.specs.declared.fragment.Fragment.{Fragment};
ghost use Rattle.cache_face.specs.Choice.{CanJoin, HasKey, HasNone, IsChoice, entry_at};
ghost use Rattle.cache_face.specs.Keeping.{entry_of, IsSmall, IsWhole};
ghost use Rattle.cache_face.specs.declared.metered.How.{How};
ghost use Rattle.cache_face.specs.declared.metered.How.TheVariants.{Joined};
ghost use Rattle.front_cache.specs.Kept.{two_shown, IsPutIn};

use cache_choice::{has_words, join_content, put_out};
use cache_face::How;
use flow_parts::{Fragment, Timeouts};

/// Takes a fragment into the content, where that shows a fragment joinable with it, and tells whether it did. Of the
/// ten words only the five behind the key change.
#[inline(always)]
fn take_into(timeouts: &Timeouts, content: &mut [u64; 10], words: &[u64; 5], own: &Fragment) -> bool
    requires whole { IsWhole content.old }
    requires words { words.now ≡ words_of own.now.key }
    requires small { IsSmall own.now }
    ensures taken { OnTrue result ((kept : Fragment) × (content.new ≡ part_words kept)
        × CanJoin timeouts.now own.now (entry_of content.old)
        × MatchOption (entry_of content.old) ⊥ (λ old. IsJoined old own.now kept)) }
    ensures left { OnFalse result ((content.new ≡ content.old)
        × ¬ CanJoin timeouts.now own.now (entry_of content.old)) }
{
    if !has_words(content, words) {
        return false;
    }
    match join_content(timeouts, content, own) {
        Some(kept) => {
            content[5] = kept.packets;
            content[6] = kept.octets;
            content[7] = kept.first;
            content[8] = kept.last;
            content[9] = kept.flags as u64;
            true
        }
        None => false,
    }
}

/// Takes a fragment into the lower of the two contents from `first` on that can take it in, and gives its place, if one
/// did.
#[inline(always)]
fn take_into_one(
    timeouts: &Timeouts,
    contents: &mut [[u64; 10]],
    first: usize,
    words: &[u64; 5],
    own: &Fragment,
) -> Option<usize>
    requires both { first + 1 < length contents.old }
    requires whole { All IsWhole contents.old }
    requires words { words.now ≡ words_of own.now.key }
    requires small { IsSmall own.now }
    ensures taken { IfSome result
        (λ place. IsPutIn timeouts.now contents.old contents.new first own.now Joined place None) }
    ensures left { IfNone result ((contents.new ≡ contents.old)
        × HasNone (CanJoin timeouts.now own.now) (two_shown contents.old first)) }
{
    if take_into(timeouts, &mut contents[first], words, own) {
        return Some(first);
    }
    if take_into(timeouts, &mut contents[first + 1], words, own) {
        return Some(first + 1);
    }
    None
}

/// Whether the content shows a fragment of the key with these words.
#[inline(always)]
fn is_of_key(content: &[u64; 10], words: &[u64; 5], _own: &Fragment) -> bool
    requires whole { IsWhole content.now }
    requires words { words.now ≡ words_of _own.now.key }
    ensures { IsTrue result ↔ HasKey _own.now.key (entry_of content.now) }
{
    has_words(content, words) && content[5] != 0
}

/// Which of two contents is opened, where neither can take the fragment in: the lower of its key; else the lower that
/// shows none; else the one with the least last time, the lower among equals.
#[inline(always)]
fn entry_to_open(
    _timeouts: &Timeouts,
    one: &[u64; 10],
    other: &[u64; 10],
    words: &[u64; 5],
    own: &Fragment,
) -> usize
    requires one { IsWhole one.now }
    requires other { IsWhole other.now }
    requires words { words.now ≡ words_of own.now.key }
    requires none_joins { HasNone (CanJoin _timeouts.now own.now) (entry_of one.now ∷ entry_of other.now ∷ []) }
    ensures low { result < 2 }
    ensures chosen { (how : How) × IsChoice _timeouts.now (entry_of one.now ∷ entry_of other.now ∷ []) own.now how
        result (entry_at (entry_of one.now ∷ entry_of other.now ∷ []) result) own.now }
{
    if is_of_key(one, words, own) {
        return 0;
    }
    if is_of_key(other, words, own) {
        return 1;
    }
    if one[5] == 0 {
        return 0;
    }
    if other[5] == 0 || other[8] < one[8] {
        return 1;
    }
    0
}

/// Opens one of the two contents from `first` on, where neither can take the fragment in. What it showed leaves.
#[inline(always)]
fn open_one(
    _timeouts: &Timeouts,
    contents: &mut [[u64; 10]],
    first: usize,
    words: &[u64; 5],
    own: &Fragment,
) -> (usize, Option<Fragment>)
    requires both { first + 1 < length contents.old }
    requires whole { All IsWhole contents.old }
    requires words { words.now ≡ words_of own.now.key }
    requires none_joins { HasNone (CanJoin _timeouts.now own.now) (two_shown contents.old first) }
    ensures { (how : How) × IsPutIn _timeouts.now contents.old contents.new first own.now how result.0 result.1 }
{
    let entry = entry_to_open(
        _timeouts,
        &contents[first],
        &contents[first + 1],
        words,
        own,
    );
    let place = first + entry;
    let out = put_out(How::Replaced, &contents[place]);
    contents[place] = own.to_words();
    (place, out)
}

/// Puts a fragment in by the choice over the two contents from `first` on. Answers the place of the content that it is
/// in then, and the fragment that left this content, if one did.
#[inline(always)]
pub(crate) fn put_into(
    timeouts: &Timeouts,
    contents: &mut [[u64; 10]],
    first: usize,
    words: &[u64; 5],
    own: &Fragment,
) -> (usize, Option<Fragment>)
    requires both { first + 1 < length contents.old }
    requires whole { All IsWhole contents.old }
    requires words { words.now ≡ words_of own.now.key }
    requires small { IsSmall own.now }
    ensures { (how : How) × IsPutIn timeouts.now contents.old contents.new first own.now how result.0 result.1 }
{
    match take_into_one(timeouts, contents, first, words, own) {
        Some(place) => (place, None),
        None => open_one(timeouts, contents, first, words, own),
    }
}
