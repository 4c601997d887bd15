//! Numbers at the end of a text.
ghost use Rattle.std.specs.Prelude.{◌≡◌, ◌++◌, ◌%◌, ◌<◌, ◌≤◌, drop, false, IsAscii, OnOk, string_bytes};
ghost use Rattle.std.specs.Fmt.{decimal, digit_glyph};
ghost use Rattle.log_grammar.specs.Spelling.{hex};

use itoa::Buffer;
use std::alloc::AllocError;
use std::str;

/// Room for the digits of any number.
const MOST_DIGITS: usize = 64;

/// Text, and a number in decimal after it.
pub(crate) fn push_decimal(out: &mut String, before: &str, n: u32) -> Result<(), AllocError>
    ensures { OnOk result (string_bytes out.new ≡ string_bytes out.old ++ before.now ++ decimal n) }
{
    out.push_str(before)?;
    out.push_str(Buffer::new().format(n))
}

/// The last digit of a number in base 16.
fn last_digit(n: u32) -> u8
    ensures digit { result ≡ digit_glyph false (n % 16) }
    ensures ascii { result < 128 }
{
    let digit = (n % 16) as u8;
    if digit < 10 {
        b'0' + digit
    } else {
        b'a' + (digit - 10)
    }
}

/// Writes a number in base 16 to the end of a buffer, and tells where it starts.
fn write_hex(n: u32, buffer: &mut [u8; MOST_DIGITS]) -> usize
    ensures inside { result ≤ 64 }
    ensures written { drop result buffer.new ≡ hex n }
    ensures ascii { IsAscii (drop result buffer.new) }
{
    let mut at = MOST_DIGITS;
    let mut rest = n;
    'digits: while at > 0 {
        at -= 1;
        buffer[at] = last_digit(rest);
        rest /= 16;
        if rest == 0 {
            break;
        }
    }
    at
}

/// Text, and a number in base 16 after it.
pub(crate) fn push_hex(out: &mut String, before: &str, n: u32) -> Result<(), AllocError>
    ensures { OnOk result (string_bytes out.new ≡ string_bytes out.old ++ before.now ++ hex n) }
{
    out.push_str(before)?;
    let mut buffer = [0; MOST_DIGITS];
    let start = write_hex(n, &mut buffer);
    match str::from_utf8(&buffer[start..]) {
        Ok(digits) => out.push_str(digits),
        Err(_) => unreachable!(),
    }
}
