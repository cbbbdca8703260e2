#![tactic(auto)]
// Bytes that are written and read piece by piece.
ghost use Rattle.std.specs.Prelude.{◌≡◌, min, length};
ghost use Rattle.pieces.specs.Pieces.{join, zeroed};

// The order of the two in memory is the caller's. Beside the library's function, since the definitions and the promises that docs/PROMISES.md
// names go by `join`.
pub fn join(high: u8, low: u8) -> u16
    ensures { result ≡ join high low }
{
    u16::from_be_bytes([high, low])
}

// As many bytes as are wanted, or all where there are fewer.
pub fn within(wanted: usize, bytes: &[u8]) -> usize
    ensures { result ≡ min wanted (length bytes.now) }
{
    wanted.min(bytes.len())
}

// A number beside the slice, since it may be more than the slice has: the promise is for any two.
pub fn put_zeros(b: &mut [u8], n: usize)
    ensures { b.new ≡ zeroed n b.old }
{
    let end = within(n, b);
    b[..end].fill(0);
}
