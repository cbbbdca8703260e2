// Reading a lent block: any bytes are some system.
ghost use Rattle.std.specs.Prelude.{◌≡◌, ◌+◌, ◌*◌, ◌≤◌, ◌<◌, length, drop};
ghost use Rattle.chip.specs.System.{each};
ghost use Rattle.chip.specs.Reset.{nothing};
ghost use Rattle.block.specs.Layout.{unit_place, descriptor_place, unit_of, descriptor_of, shared_of, read};

use chip::system::System;
use descriptors::descriptor::Descriptor;
use descriptors::status;
use registers::shared::{Board, Gsr, Shared};
use registers::unit;
use registers::unit::Unit;

// What a host lends.
pub const SIZE: usize = 4096;

fn unit_of(b: &[u8]) -> Unit
    requires { 16 ≤ length b.now }
    ensures { result ≡ unit_of b.now }
{
    let mut values = [0u8; 9];
    values.copy_from_slice(&b[..9]);
    Unit {
        accumulator: unit::accumulator_of(values, pieces::join(b[10], b[9])),
        dp: b[11] % 32,
        rdp: unit::rdp_of(b[13]),
        l: unit::l_of(b[12]),
        rw: unit::rw_of(b[12]),
    }
}

// The first n units, and no others. A loop, as is the next, and no function over both that is told what to read, as `array::from_fn` is: with
// that a bus access cost 11,042 instructions, and 5,296 with the loops.
fn units_of(b: &[u8], n: usize) -> [Unit; 6]
    requires { (n ≤ 6) × (128 ≤ length b.now) }
    ensures { result ≡ each n (λ m u. unit_of (drop (unit_place m) b.now)) nothing.units }
{
    let mut units = System::nothing().units;
    for (m, unit) in units[..n].iter_mut().enumerate() {
        *unit = unit_of(&b[32 + 16 * m..]);
    }
    units
}

fn descriptor_of(b: &[u8]) -> Descriptor
    requires { 9 ≤ length b.now }
    ensures { result ≡ descriptor_of b.now }
{
    Descriptor {
        lba: pieces::join(b[1], b[0]),
        lam: pieces::join(b[3], b[2]),
        pba: pieces::join(b[5], b[4]),
        asn: b[6],
        ssr: status::clean(b[7]),
        asm: b[8],
    }
}

// The first n descriptors, and no others.
fn descriptors_of(b: &[u8], n: usize) -> [Descriptor; 192]
    requires { (n ≤ 192) × (128 + 9 * n ≤ length b.now) }
    ensures { result ≡ each n (λ i d. descriptor_of (drop (descriptor_place i) b.now)) nothing.descriptors }
{
    let mut descriptors = System::nothing().descriptors;
    for (i, descriptor) in descriptors[..n].iter_mut().enumerate() {
        *descriptor = descriptor_of(&b[128 + 9 * i..]);
    }
    descriptors
}

fn shared_of(b: &[u8]) -> Shared
    requires { 32 ≤ length b.now }
    ensures { result ≡ shared_of b.now }
{
    let mut table = [0u8; 16];
    table.copy_from_slice(&b[16..32]);
    Shared {
        table,
        gsr: Gsr::from(b[1]),
        ivr: b[2],
        board: Board {
            count: usize::from(b[0]),
        },
    }
}

pub fn read(b: &[u8]) -> System
    ensures { result ≡ read b.now }
{
    if b.len() < SIZE {
        return System::nothing();
    }
    let shared = shared_of(b);
    // A count above six is refused before it matters.
    let n = shared.board.count.min(6);
    System {
        units: units_of(b, n),
        shared,
        descriptors: descriptors_of(b, 32 * n),
    }
}
