//! The choice by words as a table.

ghost use Rattle.std.specs.Prelude.{◌≤◌};
ghost use Rattle.cache_face.specs.Keeping.{IsSmall, IsWhole};

use cache_choice::{WordChoice, choose_by_words, put_out};
use cache_face::How;
use flow_parts::{Fragment, Timeouts};
use trial_samples::udp_key;

/// A fragment of two packets with this source port, from one second to another.
fn part(source_port: u16, first: u32, last: u32) -> Fragment
    requires { first ≤ last }
    ensures { IsSmall result }
{
    Fragment {
        key: udp_key(source_port),
        packets: 2,
        octets: 80,
        first: 1000 * first as u64,
        last: 1000 * last as u64,
        flags: 0,
    }
}

/// The words of a fragment.
fn words(part: Fragment) -> [u64; 10]
    requires { IsSmall part }
    ensures { IsWhole result }
{
    part.to_words()
}

/// The words of a fragment, without its packets: an empty content that has the words of a key.
fn empty_words(part: Fragment) -> [u64; 10]
    ensures { IsWhole result }
{
    let mut content = part.to_words();
    content[5] = 0;
    content
}

/// The choice among four contents, where the time-outs are 300 and 1800 s, and what it puts out.
fn put(
    first: [u64; 10],
    second: [u64; 10],
    third: [u64; 10],
    fourth: [u64; 10],
    own: Fragment,
) -> (WordChoice, Option<Fragment>)
    requires first { IsWhole first }
    requires second { IsWhole second }
    requires third { IsWhole third }
    requires fourth { IsWhole fourth }
    requires own { IsSmall own }
{
    let contents = [first, second, third, fourth];
    let choice = choose_by_words(Timeouts::new(300, 1800), &contents, &own);
    (choice, put_out(choice.how, &contents[choice.place]))
}

/// Whether the answer is this choice at this place, with the words of this fragment as the new content, and with this
/// fragment put out.
fn is(
    answer: (WordChoice, Option<Fragment>),
    how: How,
    place: usize,
    kept: Fragment,
    out: Option<Fragment>,
) -> bool {
    let (choice, was_out) = answer;
    choice.how == how && choice.place == place && choice.words == kept.to_words() && was_out == out
}

/// The choice among four entries that end at 5, 1, 3 and 4 s, or among some of them and empty ones.
#[test]
fn choices_by_words(rt: HostRuntime) {
    let five = words(part(1, 4, 5));
    let one = words(part(2, 1, 1));
    let three = words(part(3, 2, 3));
    let last = words(part(4, 4, 4));
    let own = part(9, 9, 9);
    let (joined, none) = put(five, one, [0; 10], last, part(4, 10, 10));
    assert!(rt; joined.how == How::Joined && joined.place == 3 && none.is_none());
    let [a, b, c, d, e, packets, octets, first, end, flags] = joined.words;
    assert!(rt; [a, b, c, d, e] == udp_key(4).to_words());
    assert!(rt; [packets, octets, first, end, flags] == [4, 160, 4000, 10_000, 0]);
    let late = part(2, 302, 302);
    let one_out = Some(part(2, 1, 1));
    let anew = put(five, one, [0; 10], last, late);
    assert!(rt; is(anew, How::Replaced, 1, late, one_out));
    let opened = put(five, one, [0; 10], last, own);
    assert!(rt; is(opened, How::Opened, 2, own, None));
    let lowest = put([0; 10], one, [0; 10], last, own);
    assert!(rt; is(lowest, How::Opened, 0, own, None));
    let again = put(five, empty_words(own), three, [0; 10], own);
    assert!(rt; is(again, How::Opened, 1, own, None));
    let oldest = put(five, one, three, last, own);
    assert!(rt; is(oldest, How::Replaced, 1, own, one_out));
}

/// Among equals the lowest: of two entries that end at once, and of two of one key that don't take the fragment in. Of
/// those of one key the lowest that takes it in.
#[test]
fn lowest_among_equals(rt: HostRuntime) {
    let old = part(1, 100, 100);
    let content = words(old);
    let new = words(part(1, 2000, 2000));
    let (joined, none) = put(content, new, new, [0; 10], part(1, 2001, 2001));
    assert!(rt; joined.how == How::Joined && joined.place == 1 && none.is_none());
    let late = part(1, 9000, 9000);
    let anew = put(content, new, new, [0; 10], late);
    assert!(rt; is(anew, How::Replaced, 0, late, Some(old)));
    let other = part(2, 100, 100);
    let own = part(3, 1, 1);
    let oldest = put(new, words(other), words(other), words(other), own);
    assert!(rt; is(oldest, How::Replaced, 1, own, Some(other)));
}

/// What each answer puts out of an entry.
#[test]
fn out_of_an_entry(rt: HostRuntime) {
    let old = part(1, 4, 5);
    let content = words(old);
    assert!(rt; put_out(How::Replaced, &content) == Some(old));
    assert!(rt; put_out(How::Replaced, &[0; 10]).is_none());
    assert!(rt; put_out(How::Joined, &content).is_none());
    assert!(rt; put_out(How::Opened, &content).is_none());
    assert!(rt; put_out(How::PassedBy, &content).is_none());
}
