//! Numbers in hexadecimal digits.
ghost use Rattle.std.specs.Prelude.{◌≡◌, ◌<◌, ◌≤◌, ◌++◌, false, drop, length, take, replicate};
ghost use Rattle.std.specs.Prelude.{IsAscii};
ghost use Rattle.std.specs.Fmt.{digit_glyph, digits};
ghost use Rattle.asan_check.specs.Appending.{AppendsPiece};
ghost use Rattle.asan_check.specs.Lines.{hex_text};

use super::pieces::push_words;
use crate::NoMemory;
use std::alloc::Allocator;

/// The base of hexadecimal digits.
const BASE: u64 = 16;

/// The most hexadecimal digits that a number of 64 bits has.
const MAX_DIGITS: usize = 16;

/// Appends a label, and then a number in lower-case hexadecimal digits with zeros before it up to a
/// width.
pub fn push_hex<A: Allocator>(
    label: &str,
    number: u64,
    width: usize,
    text: &mut String<A>,
) -> Result<(), NoMemory>
    requires { width ≤ MAX_DIGITS }
    ensures appends { AppendsPiece (label.now ++ hex_text width number) text.old text.new result }
    ensures short { length (hex_text width number) ≤ MAX_DIGITS }
{
    let (digits, first) = hex_digits(number);
    let start = first.min(MAX_DIGITS - width);
    // Each byte of the buffer is a digit.
    let padded = unsafe { std::str::from_utf8_unchecked(&digits[start..]) };
    push_words(label, padded, text)
}

/// The digits of a number, at the end of a buffer of zeros, and the place where they begin.
fn hex_digits(number: u64) -> ([u8; MAX_DIGITS], usize)
    ensures digits { drop result.1 result.0 ≡ digits BASE false number }
    ensures zeros { take result.1 result.0 ≡ replicate result.1 48 }
    ensures long { length result.0 ≡ MAX_DIGITS }
    ensures within { result.1 < MAX_DIGITS }
    ensures ascii { IsAscii result.0 }
{
    let mut digits = [b'0'; MAX_DIGITS];
    let mut first = MAX_DIGITS - 1;
    let mut left = number;
    while left >= BASE {
        digits[first] = hex_digit((left % BASE) as u8);
        first -= 1;
        left /= BASE;
    }
    digits[first] = hex_digit(left as u8);
    (digits, first)
}

/// The digit of a number below 16.
fn hex_digit(number: u8) -> u8
    requires { number < BASE }
    ensures glyph { result ≡ digit_glyph false number }
    ensures ascii { result < 128 }
{
    if number < 10 {
        b'0' + number
    } else {
        b'a' - 10 + number
    }
}
