//! The choice as a table.

ghost use Rattle.std.specs.Prelude.{◌≤◌, All, ◌∷◌, []};
ghost use Rattle.cache_face.specs.Choice.{IsSmallEntry};
ghost use Rattle.cache_face.specs.Keeping.{IsSmall};

use cache_face::{Choice, How, choose};
use flow_parts::{Fragment, Timeouts};
use trial_samples::udp_key;

/// A fragment of two packets with this source port, from one second to another.
fn part(source_port: u16, first: u32, last: u32) -> Fragment
    requires { first ≤ last }
    ensures { IsSmall result }
{
    Fragment {
        key: udp_key(source_port),
        packets: 2,
        octets: 80,
        first: 1000 * first as u64,
        last: 1000 * last as u64,
        flags: 0,
    }
}

/// The choice among four entries, where the time-outs are 300 and 1800 s.
fn put(
    first: Option<Fragment>,
    second: Option<Fragment>,
    third: Option<Fragment>,
    fourth: Option<Fragment>,
    own: Fragment,
) -> Choice
    requires first { IsSmallEntry first }
    requires second { IsSmallEntry second }
    requires third { IsSmallEntry third }
    requires fourth { IsSmallEntry fourth }
    requires own { IsSmall own }
{
    let entries = [first, second, third, fourth];
    choose(Timeouts::new(300, 1800), &entries, own)
}

/// The choice among two entries, where the time-outs are 300 and 1800 s.
fn put_in_two(entries: &[Option<Fragment>; 2], own: Fragment) -> Choice
    requires entries { All IsSmallEntry entries.now }
    requires own { IsSmall own }
{
    choose(Timeouts::new(300, 1800), entries, own)
}

/// Whether the choice is this answer at this place, with this fragment put out, and this entry afterwards.
fn is(choice: &Choice, how: How, place: usize, out: Option<Fragment>, kept: Fragment) -> bool {
    choice.how == how && choice.place == place && choice.out == out && choice.kept == kept
}

/// The choice among four entries that end at 5, 1, 3 and 4 s.
#[test]
fn choices_of_four(rt: HostRuntime) {
    let five = part(1, 4, 5);
    let one = part(2, 1, 1);
    let three = part(3, 2, 3);
    let last = part(4, 4, 4);
    let own = part(9, 9, 9);
    assert!(rt;
        is(
            &put(Some(five), Some(one), Some(three), Some(last), own),
            How::Replaced,
            1,
            Some(one),
            own
        )
    );
    let late = part(2, 302, 302);
    assert!(rt;
        is(
            &put(Some(five), Some(one), Some(three), Some(last), late),
            How::Replaced,
            1,
            Some(one),
            late
        )
    );
    let near = part(3, 10, 10);
    let with = put(Some(five), Some(one), Some(three), Some(last), near);
    assert!(rt; with.how == How::Joined && with.place == 2 && with.out.is_none());
    assert!(rt; with.kept.packets == 4 && with.kept.first == 2000 && with.kept.last == 10_000);
    assert!(rt;
        is(
            &put(Some(five), None, Some(three), None, own),
            How::Opened,
            1,
            None,
            own
        )
    );
    let again = part(3, 1000, 1001);
    assert!(rt;
        is(
            &put(Some(five), None, Some(three), None, again),
            How::Replaced,
            2,
            Some(three),
            again
        )
    );
}

/// Among equals the lowest: of two entries of one key that take the fragment in, of two that don't, of two that end at
/// once.
#[test]
fn lowest_among_equals(rt: HostRuntime) {
    let old = part(1, 100, 100);
    let new = part(1, 2000, 2000);
    let other = part(2, 100, 100);
    let own = part(1, 2001, 2001);
    let with = put(Some(old), Some(new), Some(new), None, own);
    assert!(rt; with.how == How::Joined && with.place == 1 && with.kept.first == 2_000_000);
    let late = part(1, 9000, 9000);
    assert!(rt;
        is(
            &put(Some(old), Some(new), Some(new), None, late),
            How::Replaced,
            0,
            Some(old),
            late
        )
    );
    let third = part(3, 1, 1);
    assert!(rt;
        is(
            &put(Some(new), Some(other), Some(other), Some(other), third),
            How::Replaced,
            1,
            Some(other),
            third
        )
    );
    assert!(rt;
        is(
            &put(None, None, None, None, third),
            How::Opened,
            0,
            None,
            third
        )
    );
}

/// The choice among two entries, by the same rules.
#[test]
fn choices_of_two(rt: HostRuntime) {
    let old = part(1, 100, 101);
    let new = part(2, 200, 201);
    let own = part(2, 202, 202);
    let both = [Some(old), Some(new)];
    let with = put_in_two(&both, own);
    assert!(rt; with.how == How::Joined && with.place == 1 && with.kept.packets == 4);
    let other = part(3, 300, 300);
    assert!(rt;
        is(
            &put_in_two(&both, other),
            How::Replaced,
            0,
            Some(old),
            other
        )
    );
}
