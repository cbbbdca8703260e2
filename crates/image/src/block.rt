// One unit's block of an image, read from where it starts (document 02, P2): its check, its own rules, and what it holds.
ghost use Rattle.std.specs.Prelude.{◌≡◌, ◌+◌, ◌*◌, ◌%◌, ◌^◌, ◌<◌, ◌≤◌, length, nat_eq};
ghost use Rattle.masks.specs.Fields.{every};
ghost use Rattle.image.specs.Block.{words, ssr, reserved, shared_of, unit_of, descriptor_of};
ghost use Rattle.image.specs.Rules.{registers_clear, nvr_alone, allowed, own};

use descriptors::descriptor::Descriptor;
use registers::shared::{Board, Gsr, Shared};
use registers::unit;
use registers::unit::Unit;

// How many bytes a block has.
pub(crate) const SIZE: usize = 512;

pub(crate) type Block = [u8; SIZE];

// The first n words, added up; carries beyond 16 bits are dropped. How many, and no part of the block: a part of an odd length would end in
// half a word.
pub(crate) fn sum(b: &[u8], n: usize) -> u16
    requires { (n ≤ 256) × (2 * n ≤ length b.now) }
    ensures { result ≡ words n b.now % 2 ^ 16 }
{
    b[..2 * n].chunks_exact(2).fold(
        0,
        |total: u16, word| total.wrapping_add(pieces::join(word[0], word[1])),
    )
}

// What the units share. The count is the block's own.
pub(crate) fn shared_of(b: &Block) -> Shared
    ensures { result ≡ shared_of b.now }
{
    let mut table = [0u8; 16];
    table.copy_from_slice(&b[2..18]);
    Shared {
        table,
        gsr: Gsr::from(b[31]),
        ivr: b[30],
        board: Board {
            count: usize::from(b[1]),
        },
    }
}

pub(crate) fn unit_of(b: &Block) -> Unit
    ensures { result ≡ unit_of b.now }
{
    let mut values = [0u8; 9];
    values.copy_from_slice(&b[18..27]);
    Unit {
        accumulator: unit::accumulator_of(values, pieces::join(b[27], b[28])),
        dp: b[29],
        rdp: b[33],
        l: unit::l_of(b[32]),
        rw: unit::rw_of(b[32]),
    }
}

pub(crate) fn descriptor_of(b: &Block, n: usize) -> Descriptor
    requires { n < 32 }
    ensures { result ≡ descriptor_of n b.now }
{
    let at = 34 + 9 * n;
    let d = &b[at..];
    Descriptor {
        lba: pieces::join(d[0], d[1]),
        lam: pieces::join(d[2], d[3]),
        pba: pieces::join(d[4], d[5]),
        asn: d[6],
        ssr: d[7],
        asm: d[8],
    }
}

// The reserved bits of the unit's registers and of GSR.
fn registers_clear(b: &Block) -> bool
    ensures { result ≡ registers_clear b.now }
{
    let marks = pieces::join(b[27], b[28]);
    (marks / 512 % 128 == 0)
        & (b[29] / 32 % 8 == 0)
        & (b[31] / 2 % 32 == 0)
        & (b[32] % 8 == 0)
        & (b[33] / 32 % 4 == 0)
}

// RDP's number is zero under NVR.
#[tactic(auto, unfolding(masks::specs::Fields::bit))]
fn nvr_alone(rdp: u8) -> bool
    ensures { result ≡ nvr_alone rdp }
{
    !(rdp / 128 % 2 == 1) | (rdp % 32 == 0)
}

// A status: bits 5 and 6 are reserved, and IP is there only with E.
fn allowed(d: Descriptor) -> bool
    ensures { result ≡ allowed d.ssr }
{
    (d.ssr / 32 % 4 == 0) & (!d.pending() | d.enabled())
}

fn statuses_allowed(b: &Block) -> bool
    ensures { result ≡ every 32 (λ n. allowed (ssr n b.now)) }
{
    (0..32).all(|n| allowed(descriptor_of(b, n)))
}

fn reserved_zero(b: &Block) -> bool
    ensures { result ≡ every 188 (λ i. nat_eq (reserved b.now i) 0) }
{
    b[322..510].iter().all(|byte| *byte == 0)
}

// All of the block's own rules but the count's.
pub(crate) fn own(b: &Block, m: usize) -> bool
    ensures { result ≡ own m b.now }
{
    (usize::from(b[0]) == m)
        & registers_clear(b)
        & nvr_alone(b[33])
        & statuses_allowed(b)
        & reserved_zero(b)
}
