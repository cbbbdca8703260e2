// Start and reset (handbook 4.5.1).
ghost use Rattle.std.specs.Prelude.{ℕ, ◌≡◌, ◌<◌, Some};
ghost use Rattle.descriptors.specs.Descriptor.{zeros};
ghost use Rattle.chip.specs.Reset.{blank, uninitialized, nothing, unselected, identity, fresh, unselectable};

use crate::system::{PlaceIndex, System};
use descriptors::descriptor::Descriptor;
use descriptors::status;
use registers::shared::{Board, Gsr, Shared};
use registers::unit;
use registers::unit::{Byte, Change, Unit};

fn zeros() -> Descriptor
    ensures { result ≡ zeros }
{
    Descriptor {
        lba: 0,
        lam: 0,
        pba: 0,
        asn: 0,
        ssr: 0,
        asm: 0,
    }
}

// What maps every address to itself, for number 00.
fn identity() -> Descriptor
    ensures { result ≡ identity }
{
    Descriptor {
        ssr: status::E,
        asm: 0xFF,
        ..zeros()
    }
}

fn blank() -> Unit
    ensures { result ≡ blank }
{
    let byte = Byte {
        value: 0,
        global: false,
    };
    let accumulator = [byte; 9];
    Unit {
        accumulator,
        dp: 0,
        rdp: 0,
        l: unit::NO,
        rw: false,
    }
}

fn uninitialized(board: Board) -> Shared
    ensures { result ≡ uninitialized board }
{
    let table = [0u8; 16];
    let gsr = Gsr {
        f: false,
        df: false,
        ie: false,
    };
    Shared {
        table,
        gsr,
        ivr: 0x0F,
        board,
    }
}

// 2, of the unit that is chip-selected during reset, if any is.
pub(crate) fn unselectable(selected: Option<u64>, count: u64) -> bool
    ensures { result ≡ unselectable selected count }
{
    match selected {
        Some(m) => m >= count,
        None => false,
    }
}

impl System {
    // Before the first start.
    pub fn nothing() -> System
        ensures { result ≡ nothing }
    {
        let descriptor = zeros();
        let descriptors = [descriptor; 192];
        let unit = blank();
        let units = [unit; 6];
        let shared = Shared {
            ivr: 0,
            ..uninitialized(Board { count: 0 })
        };
        System {
            descriptors,
            units,
            shared,
        }
    }

    #[tactic(auto, unfolding(crate::specs::Reset::unselected))]
    fn unselected(board: Board) -> System
        ensures { result ≡ unselected board }
    {
        System::nothing()
            .with_shared(uninitialized(board))
            .in_all(Change::Report(unit::NO, unit::NONE))
    }

    // Of a unit that can be there, or of none. A `requires` and no `UnitIndex`: the two calls that come here would each have to open
    // the `Option` and close it again.
    #[tactic(auto, unfolding(crate::specs::Reset::fresh))]
    pub(crate) fn fresh(board: Board, selected: Option<u64>) -> System
        requires { (m : ℕ) → selected ≡ Some m → m < 6 }
        ensures { result ≡ fresh board selected }
    {
        let system = System::unselected(board);
        match selected {
            Some(m) => {
                let first = PlaceIndex {
                    value: 32 * (m as usize),
                };
                system.with_descriptor(first, identity())
            }
            None => system,
        }
    }
}
