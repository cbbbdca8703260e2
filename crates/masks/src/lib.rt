#![tactic(auto)]
// Fields under a mask (handbook 3.1.2, 3.1.3, 3.1.5). Ones in a mask mark the significant bit
// positions, zeroes are "don't cares"; a mask need not be contiguous.
ghost use Rattle.std.specs.Prelude.{◌≡◌, ◌<◌, ◌^◌, ℕ};
ghost use Rattle.masks.specs.Fields.{agree, clash, gate};

// A field of bits: a page has 16 of them, an address space number 8.
pub trait Field: Copy {
    ghost width: { ℕ };

    ghost number: { Self → ℕ };

    // The number that the bits are, of no more bits than the field has.
    fn bits(self) -> u16
        ensures number { result ≡ number self }
        ensures fits { result < 2 ^ width };
}

impl Field for u8 {
    ghost width = { 8 };

    ghost number = { λ x. x };

    fn bits(self) -> u16 {
        u16::from(self)
    }
}

impl Field for u16 {
    ghost width = { 16 };

    ghost number = { λ x. x };

    fn bits(self) -> u16 {
        self
    }
}

// Whether a and b agree wherever the mask has a one.
#[tactic(auto, using(crate::proofs::Laws::agree_test))]
pub fn agree<F: Field>(mask: F, a: F, b: F) -> bool
    ensures { result ≡ agree F.width (F.number mask) (F.number a) (F.number b) }
{
    (a.bits() ^ b.bits()) & mask.bits() == 0
}

// Whether some value agrees both with a, under the mask m, and with b, under the mask n.
#[tactic(auto, using(crate::proofs::Laws::clash_test))]
pub fn clash<F: Field>(m: F, a: F, n: F, b: F) -> bool
    ensures { result ≡ clash F.width (F.number m) (F.number a) (F.number n) (F.number b) }
{
    (a.bits() ^ b.bits()) & (m.bits() & n.bits()) == 0
}

// The first value is passed through where the mask has a zero, the second is gated out where it has
// a one. Pages alone are gated, so that it has no other width.
pub fn gate(mask: u16, passed: u16, gated: u16) -> u16
    ensures { result ≡ gate 16 mask passed gated }
{
    (passed & !mask) | (gated & mask)
}
