#![tactic(auto)]
// A line of ASCII bytes as it is held, and the digits in it.
pub mod digits;

ghost use Rattle.std.specs.Prelude.{◌≡◌};
ghost use Rattle.text.specs.Digits.{decimal_number, hex_byte};
ghost use Rattle.text.specs.Text.{empty, held, is_empty, pushed, with_bytes, text};

// Room for the longest line that is printed, and for more than the longest that has a meaning.
const ROOM: usize = 22;

// The first `length` bytes are held. An array with a length beside it, and no `Vec`, since the project has no heap. It goes by
// value: it is small.
#[derive(Clone, Copy)]
pub struct Text {
    pub bytes: [u8; ROOM],
    pub length: usize,
}

impl Text {
    pub fn new() -> Text
        ensures { result ≡ empty }
    {
        Text {
            bytes: [0; ROOM],
            length: 0,
        }
    }

    pub fn is_empty(self) -> bool
        ensures { result ≡ is_empty self }
    {
        self.length == 0
    }

    // All bytes, where a length says more than there are.
    pub fn held(&self) -> &[u8]
        ensures { result.now ≡ held self.now }
    {
        let end = pieces::within(self.length, &self.bytes);
        &self.bytes[..end]
    }

    // No line that is longer has a meaning, so a byte that has no room may be dropped.
    #[tactic(auto, unfolding(crate::specs::Text::pushed))]
    pub fn push(mut self, byte: u8) -> Text
        ensures { result ≡ pushed self byte }
    {
        let at = self.length;
        if at < ROOM {
            self.bytes[at] = byte;
            self.length = at + 1;
        }
        self
    }

    pub fn with_bytes(self, bytes: &[u8]) -> Text
        ensures { result ≡ with_bytes self bytes.now }
    {
        bytes.iter().copied().fold(self, Text::push)
    }

    // No `From`: what has no room is lost.
    pub fn of(bytes: &[u8]) -> Text
        ensures { result ≡ text bytes.now }
    {
        Text::new().with_bytes(bytes)
    }

    pub fn with_hex(self, byte: u8) -> Text
        ensures { result ≡ with_bytes self (hex_byte byte) }
    {
        let high = digits::hex_digit(u32::from(byte / 16));
        let low = digits::hex_digit(u32::from(byte));
        self.push(high).push(low)
    }

    pub fn with_number(self, n: u8) -> Text
        ensures { result ≡ with_bytes self (decimal_number n) }
    {
        let ones = digits::hex_digit(u32::from(n % 10));
        if n < 10 {
            return self.push(ones);
        }
        let tens = digits::hex_digit(u32::from(n / 10 % 10));
        self.push(tens).push(ones)
    }
}
