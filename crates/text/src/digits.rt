// Digits as bytes, and the numbers that they write.
ghost use Rattle.std.specs.Prelude.{◌≡◌};
ghost use Rattle.text.specs.Digits.{decimal, hex, digit, byte_of, hex_digit};

pub fn decimal(c: u8) -> bool
    ensures { result ≡ decimal c }
{
    c.is_ascii_digit()
}

// In capitals alone: `is_ascii_hexdigit` takes small letters too.
pub fn hex(c: u8) -> bool
    ensures { result ≡ hex c }
{
    matches!(c, b'0'..=b'9' | b'A'..=b'F')
}

// Of any byte: what is no digit has a value here, and none in `to_digit`.
pub fn digit(c: u8) -> u8
    ensures { result ≡ digit c }
{
    if c < b'A' {
        c.saturating_sub(b'0')
    } else {
        c - b'A' + 10
    }
}

// Above a byte only where one of the two is no digit.
pub fn byte_of(high: u8, low: u8) -> u16
    ensures { result ≡ byte_of high low }
{
    16 * u16::from(digit(high)) + u16::from(digit(low))
}

// In capitals, which the digits of the library are not.
pub fn hex_digit(n: u32) -> u8
    ensures { result ≡ hex_digit n }
{
    b"0123456789ABCDEF"[(n % 16) as usize]
}
