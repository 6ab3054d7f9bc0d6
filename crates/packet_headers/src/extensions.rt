//! The extension headers of IPv6 (RFC 8200, section 4; RFC 4302, section 2).

ghost use Rattle.std.specs.Prelude.{◌≡◌, ◌≢◌, ◌≤◌, ℕ, List, true, false, IfOk, IfErr, length};
ghost use Rattle.packet_headers.specs.Extensions.{is_extension, extension_length, is_whole, is_later_fragment};
ghost use Rattle.packet_headers.specs.Extensions.{upper_part, WalksOn};
ghost use Rattle.packet_headers.specs.Shown.{upper_shown, StepGives};

use crate::fault::HeaderFault;
use octets::u16_at;

/// Hop-by-hop options.
const HOP_BY_HOP: u8 = 0;

/// A routing header.
const ROUTING: u8 = 43;

/// A fragment header.
const FRAGMENT: u8 = 44;

/// An authentication header.
const AUTHENTICATION: u8 = 51;

/// Destination options.
const DESTINATION_OPTIONS: u8 = 60;

/// What lies behind the extension headers: its protocol, whether it is a fragment other than the first,
/// and the octets up to the packet's end.
#[derive(Clone, Copy, Debug)]
pub struct UpperView<'a> {
    pub protocol: u8,
    pub later: bool,
    pub payload: &'a [u8],
}

/// What going over one header shows: what lies behind the last one, or the number and the octets of the
/// next one.
enum Step<'a> {
    Ends(UpperView<'a>),
    GoesOn(u8, &'a [u8]),
}

/// Goes over the extension headers, from the one that `first` names to the packet's end. `Short` where one of them
/// isn't whole.
pub fn upper_of(first: u8, headers: &[u8]) -> Result<UpperView<'_>, HeaderFault>
    ensures fields { IfOk result (λ view. upper_part first headers.now ≡ Ok (upper_shown view)) }
    ensures fault { IfErr result (λ fault. upper_part first headers.now ≡ Err fault) }
    ensures never_not_ip { result ≢ Err HeaderFault.NotIp }
{
    let mut next = first;
    let mut rest = headers;
    loop {
        match go_over(next, rest)? {
            Step::Ends(upper) => return Ok(upper),
            Step::GoesOn(named, behind) => {
                next = named;
                rest = behind;
            }
        }
    }
}

/// A law on the definition of the walk: it goes over one header, and then over what is left, however
/// many there are. The call does nothing.
pub fn walk_law()
    ensures { (next : ℕ) (headers : List ℕ) → WalksOn next headers }
{}

/// Goes over one extension header.
#[tactic(auto, using(crate::proofs::Walk::walk_laws))]
fn go_over(next: u8, headers: &[u8]) -> Result<Step<'_>, HeaderFault>
    ensures step { IfOk result (StepGives next headers.now) }
    ensures fault { IfErr result (λ fault. upper_part next headers.now ≡ Err fault) }
    ensures never_not_ip { result ≢ Err HeaderFault.NotIp }
{
    if !is_extension(next) {
        return Ok(Step::Ends(UpperView {
            protocol: next,
            later: false,
            payload: headers,
        }));
    }
    let length = length_of(next, headers)?;
    let (_, behind) = headers.split_at(length);
    if is_later_fragment(next, headers) {
        return Ok(Step::Ends(UpperView {
            protocol: headers[0],
            later: true,
            payload: behind,
        }));
    }
    Ok(Step::GoesOn(headers[0], behind))
}

/// Whether this number names an extension header that is gone over.
fn is_extension(next: u8) -> bool
    ensures { result ≡ is_extension next }
{
    matches!(
        next,
        HOP_BY_HOP | ROUTING | FRAGMENT | AUTHENTICATION | DESTINATION_OPTIONS
    )
}

/// Whether this is a fragment header, and that of a fragment other than the first.
fn is_later_fragment(next: u8, headers: &[u8]) -> bool
    requires { 4 ≤ length headers.now }
    ensures { result ≡ is_later_fragment next headers.now }
{
    next == FRAGMENT && u16_at(headers, 2) >> 3 > 0
}

/// The length of the extension header at the front, where all of it is there.
fn length_of(next: u8, rest: &[u8]) -> Result<usize, HeaderFault>
    ensures value { IfOk result (λ octets. octets ≡ extension_length next rest.now) }
    ensures whole { IfOk result (λ octets. is_whole next rest.now ≡ true) }
    ensures least { IfOk result (λ octets. 8 ≤ octets) }
    ensures inside { IfOk result (λ octets. octets ≤ length rest.now) }
    ensures fault { IfErr result (λ fault. (is_whole next rest.now ≡ false) × (fault ≡ HeaderFault.Short)) }
{
    if rest.len() < 2 {
        return Err(HeaderFault::Short);
    }
    let words = usize::from(rest[1]);
    let length = match next {
        FRAGMENT => 8,
        AUTHENTICATION => 4 * (words + 2),
        _ => 8 * (words + 1),
    };
    if rest.len() < length {
        return Err(HeaderFault::Short);
    }
    Ok(length)
}
