// One to six units on one board: 32 descriptors for each, in one array, and what the units share (handbook 4.2).
ghost use Rattle.std.specs.Prelude.{◌≡◌, ◌<◌};
ghost use Rattle.chip.specs.System.{present, unit, descriptor, with_shared, with_descriptor, pointed, with_unit, in_all};
ghost use Rattle.registers.specs.Change.{changed};

use descriptors::descriptor::Descriptor;
use registers::shared::Shared;
use registers::unit::{Change, Unit};

// As many units and descriptors as a board has room for, with their count beside them, and no `Vec`: the project has no heap. The
// numbers of what is shared stand between the two arrays, so that a compiler moves each of them as one piece.
#[derive(Clone, Copy)]
pub struct System {
    pub units: [Unit; 6],
    pub shared: Shared,
    pub descriptors: [Descriptor; 192],
}

// The number of a unit that a board has room for.
#[derive(Clone, Copy)]
pub(crate) struct UnitIndex {
    pub(crate) value: usize,
    ghost below: { value < 6 },
}

// A place among the 192 descriptors: descriptor i % 32 of unit i / 32.
#[derive(Clone, Copy)]
pub(crate) struct PlaceIndex {
    pub(crate) value: usize,
    ghost below: { value < 192 },
}

impl System {
    pub fn present(self) -> usize
        ensures { result ≡ present self }
    {
        self.shared.board.count.min(6)
    }

    pub(crate) fn unit(self, m: UnitIndex) -> Unit
        ensures { result ≡ unit self m.value }
    {
        self.units[m.value]
    }

    pub(crate) fn descriptor(self, i: PlaceIndex) -> Descriptor
        ensures { result ≡ descriptor self i.value }
    {
        self.descriptors[i.value]
    }

    #[tactic(auto, unfolding(crate::specs::System::with_units))]
    pub(crate) fn with_unit(mut self, m: UnitIndex, unit: Unit) -> System
        ensures { result ≡ with_unit self m.value unit }
    {
        self.units[m.value] = unit;
        self
    }

    #[tactic(auto, unfolding(crate::specs::System::with_descriptor))]
    pub(crate) fn with_descriptor(mut self, i: PlaceIndex, d: Descriptor) -> System
        ensures { result ≡ with_descriptor self i.value d }
    {
        self.descriptors[i.value] = d;
        self
    }

    // A store and no struct update, as of the two above: the arrays stay where they are.
    #[tactic(auto, unfolding(crate::specs::System::with_shared))]
    pub(crate) fn with_shared(mut self, shared: Shared) -> System
        ensures { result ≡ with_shared self shared }
    {
        self.shared = shared;
        self
    }

    // 3.2.5: where the unit's DP points.
    pub(crate) fn pointed(self, m: UnitIndex) -> PlaceIndex
        ensures { result.value ≡ pointed m.value self }
    {
        let unit = self.unit(m);
        PlaceIndex {
            value: 32 * m.value + usize::from(unit.dp % 32),
        }
    }

    // 4.6.3: in all units at once. The units go through an array of their own: of a part of a field that is lent, a proof keeps no value.
    pub(crate) fn in_all(mut self, change: Change) -> System
        ensures { result ≡ in_all (changed change) self }
    {
        let n = self.present();
        let mut units = self.units;
        for unit in &mut units[..n] {
            *unit = unit.change(change);
        }
        self.units = units;
        self
    }
}
