// Writing an image. Each function writes what stands at the front of the part that it is lent, and leaves the rest.
ghost use Rattle.std.specs.Prelude.{◌≡◌, ◌+◌, ◌*◌, ◌%◌, ◌<◌, ◌≤◌, [], ◌∷◌, ◌++◌, length, drop, slice_index_or};
ghost use Rattle.pieces.specs.Pieces.{list_of, pieces, high_first};
ghost use Rattle.descriptors.specs.Descriptor.{zeros, bytes};
ghost use Rattle.registers.specs.Unit.{ac, marks, held_lsr};
ghost use Rattle.registers.specs.Shared.{gsr_byte};
ghost use Rattle.image.specs.Block.{fields, block};
ghost use Rattle.image.specs.Image.{saving, saved};

use crate::refusal::Refusal;
use crate::{block, rules};
use chip::answer;
use chip::answer::refuse;
use chip::system::System;
use descriptors::descriptor::Descriptor;
use registers::shared::Shared;
use registers::unit::Unit;

// Bytes 0 to 17: the unit number, the count, the table. That m is below six stands in three contracts: a type for it would be
// no plainer, since each use is an index.
fn put_head(b: &mut [u8], m: usize, shared: Shared)
    requires { (m < 6) × (18 ≤ length b.old) }
    ensures { b.new ≡ (m ∷ shared.board.count % 256 ∷ shared.table) ++ drop 18 b.old }
{
    b[0] = m as u8;
    b[1] = (shared.board.count % 256) as u8;
    b[2..18].copy_from_slice(&shared.table);
}

// Bytes 18 to 33: the accumulator, its marks, and the other registers.
fn put_unit(b: &mut [u8], u: Unit, shared: Shared)
    requires { 16 ≤ length b.old }
    ensures { b.new ≡ (list_of 9 (ac u) ++ high_first (marks u) ++ u.dp ∷ shared.ivr ∷ gsr_byte shared.gsr ∷ held_lsr u ∷ u.rdp ∷ []) ++ drop 16 b.old }
{
    b[..9].copy_from_slice(&u.values());
    b[9..11].copy_from_slice(&u.marks().to_be_bytes());
    b[11] = u.dp;
    b[12] = shared.ivr;
    b[13] = u8::from(shared.gsr);
    b[14] = u.held_lsr();
    b[15] = u.rdp;
}

// Bytes 34 to 321: the 32 descriptors of a unit, the nine bytes of each in accumulator order.
// Each is written to its place: of a slice that `chunks_exact_mut` lent, a proof keeps the length alone.
fn put_descriptors(b: &mut [u8], descriptors: &[Descriptor])
    requires { 9 * length descriptors.now ≤ length b.old }
    ensures { b.new ≡ pieces (length descriptors.now) (λ n. bytes (slice_index_or descriptors.now n zeros)) ++ drop (9 * length descriptors.now) b.old }
{
    for (n, d) in descriptors.iter().enumerate() {
        let at = 9 * n;
        b[at..at + 9].copy_from_slice(&d.bytes());
    }
}

// Bytes 0 to 509.
fn put_fields(b: &mut [u8], system: System, m: usize)
    requires { (m < 6) × (512 ≤ length b.old) }
    ensures { b.new ≡ fields system m ++ drop 510 b.old }
{
    let shared = system.shared;
    put_head(b, m, shared);
    put_unit(&mut b[18..], system.units[m], shared);
    put_descriptors(&mut b[34..], &system.descriptors[32 * m..32 * m + 32]);
    pieces::put_zeros(&mut b[322..], 188);
}

// A block, its check last: the word with which all 256 add up to zero.
fn put_block(b: &mut [u8], system: System, m: usize)
    requires { (m < 6) × (512 ≤ length b.old) }
    ensures { b.new ≡ block system m ++ drop 512 b.old }
{
    put_fields(b, system, m);
    let check = 0u16.wrapping_sub(block::sum(b, 255));
    b[510..512].copy_from_slice(&check.to_be_bytes());
}

// Each block is written to the part from its place on: of a slice that `chunks_exact_mut` lent, a proof keeps the length alone.
fn put_blocks(image: &mut [u8], system: System, n: usize)
    requires { (n ≤ 6) × (length image.old ≡ 512 * n) }
    ensures { image.new ≡ pieces n (block system) }
{
    for m in 0..n {
        let at = 512 * m;
        put_block(&mut image[at..], system, m);
    }
}

// A refusal writes nothing.
#[tactic(auto, unfolding(crate::specs::Image::saving, crate::specs::Image::saved))]
pub fn save(image: &mut [u8], system: System) -> Result<(), Refusal>
    ensures value { result ≡ saving (length image.old) system }
    ensures image_after { image.new ≡ saved image.old system }
{
    let n = system.shared.board.count;
    refuse(Refusal::Count, answer::miscounted(n))?;
    refuse(Refusal::Length, image.len() != block::SIZE * n)?;
    refuse(Refusal::Fields, !rules::sound(system))?;
    put_blocks(image, system, n);
    Ok(())
}
