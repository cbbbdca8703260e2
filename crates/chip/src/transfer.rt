// Segment status, and transfer descriptor (handbook 4.6.2.3, 4.6.2.4).
ghost use Rattle.std.specs.Prelude.{◌≡◌, ◌<◌};
ghost use Rattle.chip.specs.Transfer.{transfer, write_status};

use crate::answer::Reading;
use crate::system::{System, UnitIndex};
use descriptors::status;

impl System {
    #[tactic(auto, unfolding(crate::specs::Transfer::transfer))]
    pub(crate) fn transfer(self, m: UnitIndex) -> Reading
        ensures { result ≡ transfer m.value self }
    {
        let d = self.descriptor(self.pointed(m));
        self.with_unit(m, self.unit(m).take(d)).reading(d.ssr)
    }

    #[tactic(auto, unfolding(crate::specs::Transfer::write_status))]
    pub(crate) fn write_status(self, m: UnitIndex, value: u8) -> System
        ensures { result ≡ write_status m.value value self }
    {
        let i = self.pointed(m);
        let d = self.descriptor(i);
        self.with_descriptor(i, d.with_ssr(status::rewritten(d.ssr, value)))
    }
}
