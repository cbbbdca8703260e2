// Load descriptor (handbook 4.6.3.2).
ghost use Rattle.std.specs.Prelude.{◌≡◌, ◌<◌};
ghost use Rattle.chip.specs.System.{in_each};
ghost use Rattle.descriptors.specs.Descriptor.{collides};
ghost use Rattle.chip.specs.Search.{in_unit};
ghost use Rattle.chip.specs.Load.{blame, collision, load_at, load};

use crate::answer::Reading;
use crate::system::{PlaceIndex, System, UnitIndex};
use descriptors::descriptor::Descriptor;
use descriptors::status;
use registers::unit;
use registers::unit::{Bytes, Change, Unit};

// A unit's part in a refused load.
fn blame(unit: Unit, lowest: Option<usize>) -> Unit
    ensures { result ≡ blame lowest unit }
{
    match lowest {
        Some(i) => unit.report(unit::LD, (i % 32) as u8),
        None => unit.report(unit::NO, unit::NONE),
    }
}

impl System {
    fn collision(self, d: Descriptor) -> bool
        ensures { result ≡ collision d self }
    {
        d.enabled() && self.in_system().iter().any(|e| d.collides(e))
    }

    fn blame(mut self, d: Descriptor) -> System
        ensures { result ≡ in_each (λ k. blame (in_unit (collides d) k self)) self }
    {
        // By index: each turn looks at the whole board while it changes one unit.
        let n = self.present();
        for k in 0..n {
            let lowest = self
                .in_unit(UnitIndex { value: k })
                .iter()
                .position(|e| d.collides(e));
            let unit = self.units[k];
            self.units[k] = blame(unit, lowest);
        }
        self
    }

    // The place is disabled first, so that it cannot cause a collision.
    #[tactic(auto, unfolding(crate::specs::Load::load_at))]
    fn load_at(self, d: Descriptor, i: PlaceIndex) -> Reading
        ensures { result ≡ load_at d i.value self }
    {
        let old = self.descriptor(i);
        let t = self.with_descriptor(i, old.with_ssr(status::disabled(old.ssr)));
        if t.collision(d) {
            return t.blame(d).reading(0xFF);
        }
        t.with_descriptor(i, d)
            .in_all(Change::Report(unit::NO, unit::NONE))
            .reading(0x00)
    }

    #[tactic(auto, unfolding(crate::specs::Load::load))]
    pub(crate) fn load(self, m: UnitIndex) -> Reading
        ensures { result ≡ load m.value self }
    {
        let t = self.prepare(Bytes::Load, m);
        t.load_at(t.unit(m).segment(), t.pointed(m))
    }
}
