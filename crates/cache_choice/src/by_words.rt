//! The entry of a key is found by its words.

ghost use Rattle.std.specs.Prelude.{◌≡◌, ◌+◌, ◌*◌, ◌^◌, ◌<◌, ◌↔◌, ℕ, [], map, take, All, IsTrue, IsNone, IfSome, Some, MatchOption};
ghost use Rattle.std.specs.Prelude.{slice_index_or};
ghost use Rattle.flow_key.specs.Key.{words_of};
ghost use Rattle.cache_face.specs.Choice.{CanJoin, HasKey, HasNone, IsLowest, IsOldest, entry_at};
ghost use Rattle.flow_parts.specs.Parts.{IsJoined};
ghost use Rattle.flow_parts.specs.declared.timeouts.Timeouts.{Timeouts};
ghost use Rattle.cache_face.specs.Keeping.{entry_of, IsEmptyContent, IsSmall, IsWhole};
ghost use Rattle.cache_face.specs.Choice as choice;
ghost use Rattle.cache_choice.specs.Chosen.{IsChosen, out_of};

use cache_face::laws::contents_show;
use cache_face::{How, choose};
use flow_key::FlowKey;
use flow_parts::laws::fragments_have_fields;
use flow_parts::{Fragment, Timeouts};

/// The fragment that ten words show, if they show one.
fn entry(words: &[u64; 10]) -> Option<Fragment>
    requires { IsWhole words.now }
    ensures entry { result ≡ entry_of words.now }
    ensures small { choice.IsSmallEntry result }
{
    fragments_have_fields();
    contents_show();
    Fragment::of_words(words)
}

/// Whether the first five words of a content are these.
#[inline]
pub fn has_words(content: &[u64; 10], words: &[u64; 5]) -> bool
    ensures { IsTrue result ↔ (take 5 content.now ≡ words.now) }
{
    for k in 0..5 {
        if content[k] != words[k] {
            return false;
        }
    }
    true
}

/// The lowest content that has the words of a key. Those below it show no fragment of the key, and where no content has
/// these words, none shows one.
fn lowest_with_words(contents: &[[u64; 10]; 4], _key: &FlowKey, words: &[u64; 5]) -> Option<usize>
    requires whole { All IsWhole contents.now }
    requires words { words.now ≡ words_of _key.now }
    ensures some { IfSome result (λ place. (place < 4)
        × (take 5 (slice_index_or contents.now place []) ≡ words_of _key.now)
        × ((lower : ℕ) → lower < place → ¬ HasKey _key.now (entry_at (map entry_of contents.now) lower))) }
    ensures none { IsNone result → HasNone (HasKey _key.now) (map entry_of contents.now) }
{
    for place in 0..4 {
        if has_words(&contents[place], words) {
            return Some(place);
        }
    }
    None
}

/// The fragment that a content shows, which has the words of this key.
#[inline(always)]
fn entry_of_key(content: &[u64; 10], key: FlowKey) -> Option<Fragment>
    requires whole { IsWhole content.now }
    requires words { take 5 content.now ≡ words_of key }
    ensures { result ≡ entry_of content.now }
{
    if content[5] == 0 {
        return None;
    }
    Some(Fragment {
        key,
        packets: content[5],
        octets: content[6],
        first: content[7],
        last: content[8],
        flags: content[9] as u16,
    })
}

/// The fragment that the content shows, joined with the given one, where they are joinable. The content has the words
/// of the given one's key.
pub fn join_content(timeouts: &Timeouts, content: &[u64; 10], own: &Fragment) -> Option<Fragment>
    requires whole { IsWhole content.now }
    requires words { take 5 content.now ≡ words_of own.now.key }
    requires small { IsSmall own.now }
    ensures some { IfSome result (λ kept. CanJoin timeouts.now own.now (entry_of content.now)
        × MatchOption (entry_of content.now) ⊥ (λ old. IsJoined old own.now kept)) }
    ensures none { IsNone result → ¬ CanJoin timeouts.now own.now (entry_of content.now) }
{
    contents_show();
    let old = entry_of_key(content, own.key)?;
    if timeouts.joinable(&old, own) {
        return Some(timeouts.join(old, *own));
    }
    None
}

/// Whether the content at a place shows no fragment.
#[inline]
fn is_empty(contents: &[[u64; 10]; 4], place: usize) -> bool
    requires whole { All IsWhole contents.now }
    requires place { place < 4 }
    ensures { IsTrue result ↔ IsNone (entry_at (map entry_of contents.now) place) }
{
    contents[place][5] == 0
}

/// The last time of the fragment that the content at a place shows.
#[inline]
fn last_of(contents: &[[u64; 10]; 4], place: usize) -> u64
    requires whole { All IsWhole contents.now }
    requires place { place < 4 }
    ensures { IfSome (entry_at (map entry_of contents.now) place) (λ old. result ≡ old.last) }
{
    contents[place][8]
}

/// The lowest content that shows no fragment.
fn lowest_empty(contents: &[[u64; 10]; 4]) -> Option<usize>
    requires whole { All IsWhole contents.now }
    ensures some { IfSome result (λ place. IsLowest IsNone (map entry_of contents.now) place) }
    ensures none { IsNone result → HasNone IsNone (map entry_of contents.now) }
{
    for place in 0..4 {
        if is_empty(contents, place) {
            return Some(place);
        }
    }
    None
}

/// The content with the least last time, the lowest among equals, where each shows a fragment.
fn oldest_content(contents: &[[u64; 10]; 4]) -> usize
    requires whole { All IsWhole contents.now }
    requires none_empty { HasNone IsNone (map entry_of contents.now) }
    ensures { IsOldest (map entry_of contents.now) result }
{
    let mut best = 0;
    let mut least = last_of(contents, 0);
    for place in 1..4 {
        let last = last_of(contents, place);
        if last < least {
            best = place;
            least = last;
        }
    }
    best
}

/// What becomes of the content at one place.
#[derive(Clone, Copy, Debug)]
pub struct WordChoice {
    pub how: How,
    /// Which of the contents, counted from 0.
    pub place: usize,
    /// The ten words that the content is to have.
    pub words: [u64; 10],
}

/// The choice over all four entries, each as a fragment. Few packets come here.
#[inline(never)]
fn choose_among(timeouts: Timeouts, contents: &[[u64; 10]; 4], own: &Fragment) -> WordChoice
    requires whole { All IsWhole contents.now }
    requires small { IsSmall own.now }
    ensures place { result.place < 4 }
    ensures chosen { IsChosen timeouts contents.now own.now result.how result.place result.words }
{
    let entries = [
        entry(&contents[0]),
        entry(&contents[1]),
        entry(&contents[2]),
        entry(&contents[3]),
    ];
    let choice = choose(timeouts, &entries, *own);
    WordChoice {
        how: choice.how,
        place: choice.place,
        words: choice.kept.to_words(),
    }
}

/// The choice where no content shows a fragment of the key: the lowest that shows none is opened; else the one with the
/// least last time, the lowest among equals, is opened anew.
fn choose_else(contents: &[[u64; 10]; 4], own: &Fragment) -> WordChoice
    requires whole { All IsWhole contents.now }
    requires none_of_key { HasNone (HasKey own.now.key) (map entry_of contents.now) }
    ensures place { result.place < 4 }
    ensures chosen { (limits : Timeouts) → IsChosen limits contents.now own.now result.how result.place result.words }
{
    let words = own.to_words();
    match lowest_empty(contents) {
        Some(place) => WordChoice {
            how: How::Opened,
            place,
            words,
        },
        None => WordChoice {
            how: How::Replaced,
            place: oldest_content(contents),
            words,
        },
    }
}

/// Puts a fragment into one of the four entries that ten words each show, by the choice of
/// [`choose`](cache_face::choose).
#[inline(always)]
pub fn choose_by_words(timeouts: Timeouts, contents: &[[u64; 10]; 4], own: &Fragment) -> WordChoice
    requires whole { All IsWhole contents.now }
    requires small { IsSmall own.now }
    ensures place { result.place < 4 }
    ensures chosen { IsChosen timeouts contents.now own.now result.how result.place result.words }
{
    let words = own.key.to_words();
    match lowest_with_words(contents, &own.key, &words) {
        Some(place) => match join_content(&timeouts, &contents[place], own) {
            Some(kept) => WordChoice {
                how: How::Joined,
                place,
                words: kept.to_words(),
            },
            None => choose_among(timeouts, contents, own),
        },
        None => choose_else(contents, own),
    }
}

/// The address with these two halves.
#[inline(always)]
fn address_of(high: u64, low: u64) -> u128
    ensures { result ≡ high * 2 ^ 64 + low }
{
    (high as u128) << 64 | low as u128
}

/// The key that a content which is not empty shows. Nothing is checked, since its words are those of a fragment.
#[inline(always)]
fn key_shown(content: &[u64; 10]) -> FlowKey
    requires whole { IsWhole content.now }
    requires open { ¬ IsEmptyContent content.now }
    ensures { take 5 content.now ≡ words_of result }
{
    let first = content[0];
    FlowKey {
        version: (first >> 40) as u8,
        source: address_of(content[1], content[2]),
        destination: address_of(content[3], content[4]),
        protocol: (first >> 32 & 0xFF) as u8,
        source_port: (first >> 16 & 0xFFFF) as u16,
        destination_port: (first & 0xFFFF) as u16,
    }
}

/// The fragment that a whole content shows, if it shows one.
#[inline(always)]
fn fragment_shown(content: &[u64; 10]) -> Option<Fragment>
    requires whole { IsWhole content.now }
    ensures { result ≡ entry_of content.now }
{
    if content[5] == 0 {
        return None;
    }
    entry_of_key(content, key_shown(content))
}

/// What is put out of the entry that a whole content shows.
#[inline(always)]
pub fn put_out(how: How, content: &[u64; 10]) -> Option<Fragment>
    requires whole { IsWhole content.now }
    ensures { result ≡ out_of how (entry_of content.now) }
{
    match how {
        How::Replaced => fragment_shown(content),
        How::Joined | How::Opened | How::PassedBy => None,
    }
}
