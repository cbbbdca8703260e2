// Direct translation (handbook 4.6.3.3).
ghost use Rattle.std.specs.Prelude.{◌≡◌, ◌<◌, Ok};
ghost use Rattle.chip.specs.Translation.{result_at, direct_translation};

use crate::answer::Reading;
use crate::system::{PlaceIndex, System, UnitIndex};
use descriptors::descriptor::Logical;
use registers::unit;
use registers::unit::{Bytes, Change};

impl System {
    #[tactic(auto, unfolding(crate::specs::Translation::result_at))]
    fn translated_at(self, i: PlaceIndex, page: u16) -> Reading
        ensures { result ≡ result_at (Ok i.value) page self }
    {
        let physical = self.descriptor(i).physical_page(page);
        let t = self.in_all(Change::Report(unit::NO, unit::NONE));
        let m = i.unit();
        let unit = t.unit(m).translated(physical, i.place().descriptor);
        t.with_unit(m, unit).reading(0x00)
    }

    #[tactic(auto, unfolding(crate::specs::Translation::direct_translation, crate::specs::Translation::result_at))]
    pub(crate) fn direct_translation(self, m: UnitIndex) -> Reading
        ensures { result ≡ direct_translation m.value self }
    {
        let t = self.prepare(Bytes::Translation, m);
        let unit = t.unit(m);
        let logical = Logical {
            page: unit.page(),
            number: unit.ac(6),
        };
        match t.search(logical) {
            Ok(i) => t.translated_at(i, logical.page),
            Err(near) => {
                let system = t.in_all(Change::Report(unit::NO, unit::NONE));
                Reading {
                    byte: 0xFF,
                    near,
                    system,
                }
            }
        }
    }
}
