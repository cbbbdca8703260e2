#![tactic(auto)]
// The functions of `cleftromi` under their C names: what a C host links. Each promises what that of `cleftromi` promises, in its words
// again, since an exported function stands in no trait and takes no type parameter (the C interface).
ghost use Rattle.std.specs.Prelude.{◌≡◌};
ghost use Rattle.chip.specs.declared.call.Call.TheVariants.{Start, Reset, Access, Register, Acknowledge};
ghost use Rattle.cleftromi.specs.Interface.{selected_by, cycle_by, operation_by, answer, after};
ghost use Rattle.cleftromi.specs.Interface.{save_answer, save_after, save_image, restore_answer, restore_after};

#[unsafe(no_mangle)]
pub extern "C" fn cleftromi_start(state: &mut [u8], units: u64, selected: u64) -> u64
    ensures value { result ≡ answer (Start units (selected_by selected)) state.old }
    ensures state_after { state.new ≡ after (Start units (selected_by selected)) state.old }
{
    cleftromi::cleftromi_start(state, units, selected)
}

#[unsafe(no_mangle)]
pub extern "C" fn cleftromi_reset(state: &mut [u8], selected: u64) -> u64
    ensures value { result ≡ answer (Reset (selected_by selected)) state.old }
    ensures state_after { state.new ≡ after (Reset (selected_by selected)) state.old }
{
    cleftromi::cleftromi_reset(state, selected)
}

#[unsafe(no_mangle)]
pub extern "C" fn cleftromi_access(
    state: &mut [u8],
    function_code: u64,
    direction: u64,
    address: u64,
) -> u64
    ensures value { result ≡ answer (Access function_code (cycle_by direction) address) state.old }
    ensures state_after { state.new ≡ after (Access function_code (cycle_by direction) address) state.old }
{
    cleftromi::cleftromi_access(state, function_code, direction, address)
}

#[unsafe(no_mangle)]
pub extern "C" fn cleftromi_register(
    state: &mut [u8],
    unit: u64,
    address: u64,
    direction: u64,
    value: u8,
) -> u64
    ensures value { result ≡ answer (Register unit address (operation_by direction value)) state.old }
    ensures state_after { state.new ≡ after (Register unit address (operation_by direction value)) state.old }
{
    cleftromi::cleftromi_register(state, unit, address, direction, value)
}

#[unsafe(no_mangle)]
pub extern "C" fn cleftromi_acknowledge(state: &mut [u8], unit: u64) -> u64
    ensures value { result ≡ answer (Acknowledge unit) state.old }
    ensures state_after { state.new ≡ after (Acknowledge unit) state.old }
{
    cleftromi::cleftromi_acknowledge(state, unit)
}

#[unsafe(no_mangle)]
pub extern "C" fn cleftromi_save(state: &mut [u8], image: &mut [u8]) -> u64
    ensures value { result ≡ save_answer state.old image.old }
    ensures state_after { state.new ≡ save_after state.old image.old }
    ensures image_after { image.new ≡ save_image state.old image.old }
{
    cleftromi::cleftromi_save(state, image)
}

#[unsafe(no_mangle)]
pub extern "C" fn cleftromi_restore(state: &mut [u8], image: &[u8]) -> u64
    ensures value { result ≡ restore_answer state.old image.now }
    ensures state_after { state.new ≡ restore_after state.old image.now }
{
    cleftromi::cleftromi_restore(state, image)
}
