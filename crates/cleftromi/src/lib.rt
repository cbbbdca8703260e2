#![tactic(auto)]
// The functions that a C host calls, over the block that it lends and numbers of 64 bits.
ghost use Rattle.std.specs.Prelude.{◌≡◌};
ghost use Rattle.chip.specs.declared.call.Call.TheVariants.{Start, Reset, Access, Register, Acknowledge};
ghost use Rattle.cleftromi.specs.Interface.{selected_by, cycle_by, operation_by, answer, after};
ghost use Rattle.cleftromi.specs.Interface.{save_answer, save_after, save_image, restore_answer, restore_after};
ghost use Rattle.cleftromi.specs.Fields.{number_of};
ghost use Rattle.chip.specs.Answer.{values};
ghost use Rattle.block.specs.Layout.{short, written};

use chip::access::Cycle;
use chip::answer::{Answer, Outcome, Values};
use chip::call::Call;
use chip::register::Operation;

// What a C host passes by number. "None" for a unit.
const NONE: u64 = 255;

// The direction that reads, and of a bus access that of a read-modify-write; any other number writes.
const READ: u64 = 0;

const MODIFY: u64 = 2;

// The refusal of a block that is too short. A number, and no enum: a C host gets it as it is.
const SHORT: u64 = 7;

// By functions, and no `From`, here and below: the number and the type are both of other crates.
fn selected_by(number: u64) -> Option<u64>
    ensures { result ≡ selected_by number }
{
    if number == NONE { None } else { Some(number) }
}

fn cycle_by(direction: u64) -> Cycle
    ensures { result ≡ cycle_by direction }
{
    match direction {
        READ => Cycle::Read,
        MODIFY => Cycle::ReadModifyWrite,
        _ => Cycle::Write,
    }
}

fn operation_by(direction: u64, value: u8) -> Operation
    ensures { result ≡ operation_by direction value }
{
    match direction {
        READ => Operation::Read,
        _ => Operation::Write(value),
    }
}

// Each field at its place, and no wider than it. By hand, and no `From`: the places are those that the C header gives.
#[tactic(auto, using(registers::proofs::Numbers::flag_small))]
fn number_of(v: Values, irq: bool) -> u64
    ensures { result ≡ number_of v irq }
{
    u64::from(v.number)
        + u64::from(v.kind % 16) * 256
        + u64::from(irq) * 4096
        + u64::from(v.win) * 8192
        + u64::from(v.near) * 16384
        + u64::from(v.unit % 8) * 65536
        + u64::from(v.descriptor % 32) * 524288
        + u64::from(v.byte) * 16777216
        + u64::from(v.address % 16777216) * 4294967296
}

// Refusal 7.
fn short(state: &[u8]) -> bool
    ensures { result ≡ short state.now }
{
    state.len() < block::read::SIZE
}

// Every call: what the block holds is read, the call made, and what is then to be held is written.
fn run(state: &mut [u8], call: Call) -> u64
    ensures value { result ≡ answer call state.old }
    ensures state_after { state.new ≡ after call state.old }
{
    if short(state) {
        return SHORT;
    }
    let outcome = block::read::read(state).perform(call);
    match outcome.answer {
        Answer::Refused(refusal) => u64::from(refusal.number()),
        _ => finish(state, outcome),
    }
}

// What a call that is granted answers and leaves.
fn finish(state: &mut [u8], outcome: Outcome) -> u64
    ensures value { result ≡ number_of (values outcome.answer) outcome.irq }
    ensures state_after { state.new ≡ written state.old outcome.system }
{
    let answer = outcome.answer;
    let number = number_of(answer.values(), outcome.irq);
    block::write::write(state, outcome.system);
    number
}

pub fn cleftromi_start(state: &mut [u8], units: u64, selected: u64) -> u64
    ensures value { result ≡ answer (Start units (selected_by selected)) state.old }
    ensures state_after { state.new ≡ after (Start units (selected_by selected)) state.old }
{
    let selected = selected_by(selected);
    let call = Call::Start {
        count: units,
        selected,
    };
    run(state, call)
}

pub fn cleftromi_reset(state: &mut [u8], selected: u64) -> u64
    ensures value { result ≡ answer (Reset (selected_by selected)) state.old }
    ensures state_after { state.new ≡ after (Reset (selected_by selected)) state.old }
{
    let selected = selected_by(selected);
    run(state, Call::Reset { selected })
}

pub fn cleftromi_access(state: &mut [u8], function_code: u64, direction: u64, address: u64) -> u64
    ensures value { result ≡ answer (Access function_code (cycle_by direction) address) state.old }
    ensures state_after { state.new ≡ after (Access function_code (cycle_by direction) address) state.old }
{
    let cycle = cycle_by(direction);
    let call = Call::Access {
        function_code,
        cycle,
        address,
    };
    run(state, call)
}

pub fn cleftromi_register(
    state: &mut [u8],
    unit: u64,
    address: u64,
    direction: u64,
    value: u8,
) -> u64
    ensures value { result ≡ answer (Register unit address (operation_by direction value)) state.old }
    ensures state_after { state.new ≡ after (Register unit address (operation_by direction value)) state.old }
{
    let operation = operation_by(direction, value);
    let call = Call::Register {
        unit,
        address,
        operation,
    };
    run(state, call)
}

pub fn cleftromi_acknowledge(state: &mut [u8], unit: u64) -> u64
    ensures value { result ≡ answer (Acknowledge unit) state.old }
    ensures state_after { state.new ≡ after (Acknowledge unit) state.old }
{
    run(state, Call::Acknowledge { unit })
}

pub fn cleftromi_save(state: &mut [u8], image: &mut [u8]) -> u64
    ensures value { result ≡ save_answer state.old image.old }
    ensures state_after { state.new ≡ save_after state.old image.old }
    ensures image_after { image.new ≡ save_image state.old image.old }
{
    if short(state) {
        return SHORT;
    }
    let system = block::read::read(state);
    match image::write::save(image, system) {
        Ok(()) => finish(state, system.granted(Answer::Done)),
        Err(refusal) => u64::from(refusal.number()),
    }
}

pub fn cleftromi_restore(state: &mut [u8], image: &[u8]) -> u64
    ensures value { result ≡ restore_answer state.old image.now }
    ensures state_after { state.new ≡ restore_after state.old image.now }
{
    if short(state) {
        return SHORT;
    }
    match image::read::restore(image) {
        Ok(system) => finish(state, system.granted(Answer::Done)),
        Err(refusal) => u64::from(refusal.number()),
    }
}
