// Reading an image: the block of unit n starts at byte 512 times n.
ghost use Rattle.std.specs.Prelude.{◌≡◌, ◌*◌, ◌/◌, ◌%◌, ◌≤◌, ◌&&◌, length};
ghost use Rattle.masks.specs.Fields.{every};
ghost use Rattle.pieces.specs.Pieces.{pieces};
ghost use Rattle.chip.specs.System.{each};
ghost use Rattle.chip.specs.Reset.{nothing};
ghost use Rattle.chip.specs.Answer.{passed};
ghost use Rattle.image.specs.Block.{unit_of, descriptor_of};
ghost use Rattle.image.specs.Rules.{same_shared, sound};
ghost use Rattle.image.specs.Image.{block_at, system_in, block_checks, restored};

use crate::block::{Block, SIZE};
use crate::refusal::Refusal;
use crate::{block, rules};
use chip::answer;
use chip::answer::refuse;
use chip::system::System;
use descriptors::descriptor::Descriptor;
use registers::unit::Unit;
use std::array;

// The refusal of block m of n: its check before its fields.
fn block_refusal(b: &Block, m: usize, n: usize) -> Result<(), Refusal>
    ensures { result ≡ passed (block_checks n m b.now) }
{
    refuse(Refusal::Check, block::sum(b, 256) != 0)?;
    let kept = block::own(b, m) & (usize::from(b[1]) == n);
    refuse(Refusal::Fields, !kept)
}

// Block by block: the first bad one decides.
fn examined(blocks: &[Block]) -> Result<(), Refusal>
    ensures { result ≡ passed (pieces (length blocks.now) (λ m. block_checks (length blocks.now) m (block_at blocks.now m))) }
{
    let n = blocks.len();
    for (m, b) in blocks.iter().enumerate() {
        block_refusal(b, m, n)?;
    }
    Ok(())
}

fn same_shared(blocks: &[Block]) -> bool
    ensures { result ≡ every (length blocks.now) (λ m. same_shared (block_at blocks.now 0) (block_at blocks.now m)) }
{
    blocks.iter().all(|b| rules::same_shared(&blocks[0], b))
}

// A unit for each block, and no others.
fn units_of(blocks: &[Block]) -> [Unit; 6]
    ensures { result ≡ each (length blocks.now) (λ m u. unit_of (block_at blocks.now m)) nothing.units }
{
    let nothing = System::nothing().units;
    array::from_fn(|m| if m < blocks.len() {
        block::unit_of(&blocks[m])
    } else {
        nothing[m]
    })
}

// Their descriptors, 32 each, and no others.
fn descriptors_of(blocks: &[Block]) -> [Descriptor; 192]
    ensures { result ≡ each (32 * length blocks.now) (λ i d. descriptor_of (i % 32) (block_at blocks.now (i / 32))) nothing.descriptors }
{
    let nothing = System::nothing().descriptors;
    array::from_fn(|i| {
        if i / 32 < blocks.len() {
            block::descriptor_of(&blocks[i / 32], i % 32)
        } else {
            nothing[i]
        }
    })
}

fn system_of(blocks: &[Block]) -> System
    requires { 1 ≤ length blocks.now }
    ensures { result ≡ system_in blocks.now }
{
    System {
        units: units_of(blocks),
        shared: block::shared_of(&blocks[0]),
        descriptors: descriptors_of(blocks),
    }
}

// The rules across blocks.
fn across(blocks: &[Block], system: System) -> bool
    ensures { result ≡ every (length blocks.now) (λ m. same_shared (block_at blocks.now 0) (block_at blocks.now m)) && sound system }
{
    same_shared(blocks) && rules::sound(system)
}

// The system of an image that is accepted, or the refusal.
#[tactic(auto, unfolding(crate::specs::Image::restored, crate::specs::Image::checks))]
pub fn restore(image: &[u8]) -> Result<System, Refusal>
    ensures { result ≡ restored image.now }
{
    let (blocks, rest) = image.as_chunks::<SIZE>();
    let misfit = !rest.is_empty() | answer::miscounted(blocks.len());
    refuse(Refusal::Length, misfit)?;
    examined(blocks)?;
    let system = system_of(blocks);
    refuse(Refusal::Fields, !across(blocks, system))?;
    Ok(system)
}
