// What a load and a direct translation do first (handbook 3.2.4, 4.6.3).
ghost use Rattle.std.specs.Prelude.{◌≡◌, ◌<◌};
ghost use Rattle.registers.specs.Unit.{needed};
ghost use Rattle.chip.specs.Prepare.{inconsistent, send, prepare};

use crate::system::{System, UnitIndex};
use registers::unit::{Bytes, Change};

impl System {
    // 3.2.4: GAL or GAT is clear in some unit.
    fn inconsistent(self, bytes: Bytes) -> bool
        ensures { result ≡ inconsistent (needed bytes) self }
    {
        let n = self.present();
        self.units[..n].iter().any(|unit| !unit.consistent(bytes))
    }

    // One byte of unit m's accumulator goes to all units, as by a global write.
    #[tactic(auto, unfolding(crate::specs::Prepare::send))]
    fn send(self, i: usize, m: UnitIndex) -> System
        ensures { result ≡ send i m.value self }
    {
        self.in_all(Change::Ac(i, self.unit(m).ac(i)))
    }

    // Before a load and a direct translation.
    #[tactic(auto, unfolding(crate::specs::Prepare::prepare))]
    pub(crate) fn prepare(self, bytes: Bytes, m: UnitIndex) -> System
        ensures { result ≡ prepare (needed bytes) m.value self }
    {
        if !self.inconsistent(bytes) {
            return self;
        }
        let needed: &[usize] = match bytes {
            Bytes::Translation => &[0, 1, 6],
            Bytes::Load => &[0, 1, 2, 3, 6, 8],
        };
        needed
            .iter()
            .copied()
            .fold(self, |system, i| system.send(i, m))
    }
}
