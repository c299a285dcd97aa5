//! Options of a block (draft-ietf-opsawg-pcapng, 3.5).
ghost use Rattle.std.specs.Prelude.{◌≡◌, option_copied};
ghost use Rattle.smq_packets.specs.Options.{number_of_option, octet_of_option, option_of};

use crate::octets::{eight_of, range_of, two_of};

/// The value of the first option with a code.
#[tactic(auto, using(crate::proofs::Values::option_rules))]
pub(crate) fn first_option(is_big: bool, options: &[u8], code: u16) -> Option<&[u8]>
    ensures { option_copied result ≡ option_of is_big code options.now }
{
    let mut rest = options;
    for passed in 0..options.len() {
        if rest.len() < 4 || two_of(is_big, rest, 0) == 0 {
            return None;
        }
        let size = two_of(is_big, rest, 2) as usize;
        if two_of(is_big, rest, 0) == code {
            return Some(range_of(rest, 4, 4 + size));
        }
        rest = range_of(rest, 4 + (size + 3) / 4 * 4, rest.len());
    }
    None
}

/// The number of eight octets in the first option with a code.
pub(crate) fn number_in(is_big: bool, options: &[u8], code: u16) -> Option<u64>
    ensures { result ≡ number_of_option is_big code options.now }
{
    let value = first_option(is_big, options, code)?;
    if value.len() == 8 {
        Some(eight_of(is_big, value, 0))
    } else {
        None
    }
}

/// The octet in the first option with a code.
pub(crate) fn octet_in(is_big: bool, options: &[u8], code: u16) -> Option<u8>
    ensures { result ≡ octet_of_option is_big code options.now }
{
    let value = first_option(is_big, options, code)?;
    if value.len() == 1 {
        Some(value[0])
    } else {
        None
    }
}
