//! A row of octets, as text.
ghost use Rattle.std.specs.Prelude.{◌≡◌, ◌++◌, OnOk, decimal};
ghost use Rattle.hex.specs.Hex.{encode_lower};
ghost use Rattle.smq_capture.specs.Row.{row_text, side_text};

use crate::side::Side;
use hex::encode_to_slice;
use itoa::Buffer;
use std::alloc::AllocError;

/// Puts the row of octets that an end of a session sent.
pub fn put_row(
    text: &mut Vec<u8>,
    link: u32,
    session: u64,
    sender: Side,
    moment: u64,
    octets: &[u8],
) -> Result<(), AllocError>
    ensures { OnOk result (text.new.items
        ≡ text.old.items ++ row_text link session sender moment octets.now) }
{
    text.extend_from_slice(b"piece,")?;
    put_number(text, link as u64)?;
    text.extend_from_slice(b",")?;
    put_number(text, session)?;
    put_side(text, sender)?;
    put_number(text, moment)?;
    text.extend_from_slice(b",")?;
    put_hex(text, octets)?;
    text.extend_from_slice(b"\n")
}

/// Puts how a row names an end.
fn put_side(text: &mut Vec<u8>, sender: Side) -> Result<(), AllocError>
    ensures { OnOk result (text.new.items ≡ text.old.items ++ side_text sender) }
{
    match sender {
        Side::Client => text.extend_from_slice(b",client,"),
        Side::Centre => text.extend_from_slice(b",centre,"),
    }
}

/// Puts the decimal digits of a number.
fn put_number(text: &mut Vec<u8>, number: u64) -> Result<(), AllocError>
    ensures { OnOk result (text.new.items ≡ text.old.items ++ decimal number) }
{
    let mut buffer = Buffer::new();
    text.extend_from_slice(buffer.format(number).as_bytes())
}

/// Puts two digits for each octet.
fn put_hex(text: &mut Vec<u8>, octets: &[u8]) -> Result<(), AllocError>
    ensures { OnOk result (text.new.items ≡ text.old.items ++ encode_lower octets.now) }
{
    let before = text.len();
    let after = before.saturating_add(octets.len().saturating_mul(2));
    text.resize(after, 0)?;
    let (_, back) = text.as_mut_slice().split_at_mut(before);
    match encode_to_slice(octets, back) {
        Ok(()) => Ok(()),
        Err(_) => Err(AllocError),
    }
}
