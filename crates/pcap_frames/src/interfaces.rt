// An interface's block.
ghost use Rattle.std.specs.Prelude.{◌≡◌, ◌≤◌, ◌<◌, ◌^◌, ◌+◌, false, length, IfOk, IfSome};
ghost use Rattle.pcap_frames.specs.Interfaces.{is_wrong, option_of, changed, described, interface_of};
ghost use Rattle.pcap_frames.specs.Numbers.{padded};
ghost use Rattle.pcap_frames.specs.Values.{chosen_as, option_as};

use crate::numbers::{long, padded, short};
use crate::pcapng_refusals::BlockWhy;
use crate::pcapng_values::Interface;

/// How many bytes of an option are before its value.
const HEAD: usize = 4;
/// How many bytes of an interface's body are before its options.
const FIXED: usize = 8;

/// The code after which there are no options.
const END: u16 = 0;
/// The code of the unit of time.
const RESOLUTION: u16 = 9;
/// The code of the seconds that are added to each time.
const OFFSET: u16 = 14;

/// Times are in microseconds where no option says more.
const MICROSECONDS: u8 = 6;
/// Nothing is added to times, as seconds count from 2^63 before.
const NOTHING: u64 = 1 << 63;

/// One option.
#[derive(Clone, Copy)]
pub struct Choice<'a> {
    pub code: u16,
    /// Its bytes without padding.
    pub value: &'a [u8],
}

// Whether an option has a length that its code may not have.
fn is_wrong(code: u16, count: usize) -> bool
    ensures { result ≡ is_wrong code count }
{
    match code {
        RESOLUTION => count != 1,
        OFFSET => count != 8,
        _ => false,
    }
}

// The option that the bytes begin with, or none where the options end.
fn option(bytes: &[u8], little: bool) -> Result<Option<Choice<'_>>, BlockWhy>
    ensures value { option_as result ≡ option_of little bytes.now }
    ensures right { IfOk result (λ o. IfSome o (λ choice. is_wrong choice.code (length choice.value.now) ≡ false)) }
    ensures within { IfOk result (λ o. IfSome o (λ choice. 4 + padded (length choice.value.now) ≤ length bytes.now)) }
{
    if bytes.len() < HEAD {
        return Ok(None);
    }
    let code = short(bytes, little);
    if code == END {
        return Ok(None);
    }
    let count = short(&bytes[2..], little) as usize;
    if bytes.len() < HEAD + padded(count) || is_wrong(code, count) {
        return Err(BlockWhy::Option);
    }
    Ok(Some(Choice {
        code,
        value: &bytes[HEAD..HEAD + count],
    }))
}

// What an option makes of an interface.
fn changed(interface: Interface, choice: Choice<'_>, little: bool) -> Interface
    requires { is_wrong choice.code (length choice.value.now) ≡ false }
    ensures { result ≡ changed little interface (chosen_as choice.entry) }
{
    match choice.code {
        RESOLUTION => Interface {
            resolution: choice.value[0],
            ..interface
        },
        OFFSET => Interface {
            offset: long(choice.value, little).wrapping_add(NOTHING),
            ..interface
        },
        _ => interface,
    }
}

// What options make of an interface.
fn described(options: &[u8], little: bool, interface: Interface) -> Result<Interface, BlockWhy>
    ensures { result ≡ described little 0 interface options.now }
{
    let mut rest = options;
    let mut interface = interface;
    while let Some(choice) = option(rest, little)? {
        rest = &rest[HEAD + padded(choice.value.len())..];
        interface = changed(interface, choice, little);
    }
    Ok(interface)
}

/// The interface that a body describes.
pub(crate) fn interface(body: &[u8], little: bool) -> Result<Interface, BlockWhy>
    requires { 8 ≤ length body.now }
    ensures { result ≡ interface_of little body.now }
{
    let link = short(body, little);
    described(
        &body[FIXED..],
        little,
        Interface {
            link,
            resolution: MICROSECONDS,
            offset: NOTHING,
        },
    )
}
