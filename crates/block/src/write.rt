// Writing a lent block: one form for each system. Each function writes what stands at the front of the part that it is
// lent, and leaves the rest.
ghost use Rattle.std.specs.Prelude.{◌≡◌, ◌++◌, ◌+◌, ◌*◌, ◌-◌, ◌≤◌, length, drop, slice_index_or};
ghost use Rattle.pieces.specs.Pieces.{pieces};
ghost use Rattle.descriptors.specs.Descriptor.{zeros};
ghost use Rattle.registers.specs.Unit.{no_unit};
ghost use Rattle.block.specs.Layout.{unit_bytes, descriptor_bytes, shared_bytes, written};

use crate::read;
use chip::system::System;
use descriptors::descriptor::Descriptor;
use registers::shared::Shared;
use registers::unit::Unit;

fn put_descriptor(b: &mut [u8], d: Descriptor)
    requires { 9 ≤ length b.old }
    ensures { b.new ≡ descriptor_bytes d ++ drop 9 b.old }
{
    b[..2].copy_from_slice(&d.lba.to_le_bytes());
    b[2..4].copy_from_slice(&d.lam.to_le_bytes());
    b[4..6].copy_from_slice(&d.pba.to_le_bytes());
    b[6] = d.asn;
    b[7] = d.ssr;
    b[8] = d.asm;
}

// Each is written to the part from its place on: of a slice that `chunks_exact_mut` lent, a proof keeps the length alone. Of the two
// loops, this and that of `put_units`, a line each differs: a function over both, told what to write, would be as long as either.
fn put_descriptors(b: &mut [u8], descriptors: &[Descriptor])
    requires { 9 * length descriptors.now ≤ length b.old }
    ensures { b.new ≡ pieces (length descriptors.now) (λ i. descriptor_bytes (slice_index_or descriptors.now i zeros)) ++ drop (9 * length descriptors.now) b.old }
{
    for (i, d) in descriptors.iter().enumerate() {
        let at = 9 * i;
        put_descriptor(&mut b[at..], *d);
    }
}

fn put_unit(b: &mut [u8], u: Unit)
    requires { 16 ≤ length b.old }
    ensures { b.new ≡ unit_bytes u ++ drop 16 b.old }
{
    b[..9].copy_from_slice(&u.values());
    b[9..11].copy_from_slice(&u.marks().to_le_bytes());
    b[11] = u.dp;
    b[12] = u.held_lsr();
    b[13] = u.rdp;
    b[14] = 0;
    b[15] = 0;
}

// From its place on, as above.
fn put_units(b: &mut [u8], units: &[Unit])
    requires { 16 * length units.now ≤ length b.old }
    ensures { b.new ≡ pieces (length units.now) (λ m. unit_bytes (slice_index_or units.now m no_unit)) ++ drop (16 * length units.now) b.old }
{
    for (m, unit) in units.iter().enumerate() {
        let at = 16 * m;
        put_unit(&mut b[at..], *unit);
    }
}

fn put_shared(b: &mut [u8], shared: Shared)
    requires { 32 ≤ length b.old }
    ensures { b.new ≡ shared_bytes shared ++ drop 32 b.old }
{
    pieces::put_zeros(b, 16);
    b[0] = (shared.board.count % 256) as u8;
    b[1] = u8::from(shared.gsr);
    b[2] = shared.ivr;
    b[16..32].copy_from_slice(&shared.table);
}

pub fn write(b: &mut [u8], system: System)
    ensures { b.new ≡ written b.old system }
{
    if b.len() < read::SIZE {
        return;
    }
    let shared = system.shared;
    let n = system.present();
    put_descriptors(&mut b[128..], &system.descriptors[..32 * n]);
    let past_descriptors = 128 + 288 * n;
    pieces::put_zeros(&mut b[past_descriptors..], 3968 - 288 * n);
    put_shared(b, shared);
    put_units(&mut b[32..], &system.units[..n]);
    let past_units = 32 + 16 * n;
    pieces::put_zeros(&mut b[past_units..], 16 * (6 - n));
}
