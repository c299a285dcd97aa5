//! How long a window is, by its word.
use smq_window::Length;

/// So many periods a window has before the present one.
const STEPS: u64 = 15;

/// The longest window, in ms.
const LONGEST: u64 = 999_999 * 3_600_000;

/// The length that a word says: a number, and s, m or h. Its periods are fifteenths of it, rounded up to a ms.
pub(crate) fn length_of(word: &str) -> Option<Length> {
    let (number, unit) = match word.as_bytes().split_last() {
        Some((b's', number)) => (number, 1_000),
        Some((b'm', number)) => (number, 60_000),
        Some((b'h', number)) => (number, 3_600_000),
        _ => return None,
    };
    let milliseconds = number_of(number)?.checked_mul(unit)?;
    if milliseconds > LONGEST {
        return None;
    }
    Length::new(milliseconds.div_ceil(STEPS), STEPS)
}

/// The number that digits say, where it is below 2^64.
fn number_of(digits: &[u8]) -> Option<u64> {
    if digits.is_empty() {
        return None;
    }
    let mut number = 0u64;
    for digit in digits {
        if !digit.is_ascii_digit() {
            return None;
        }
        let value = u64::from(digit.saturating_sub(b'0'));
        number = number.checked_mul(10)?.checked_add(value)?;
    }
    Some(number)
}
