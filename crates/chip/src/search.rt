// The priority encoder: the first descriptor of which something holds (handbook 3.2.6, 3.2.7).
ghost use Rattle.std.specs.Prelude.{◌≡◌, ◌/◌, ◌*◌, take, drop};
ghost use Rattle.chip.specs.System.{present};
ghost use Rattle.chip.specs.Search.{place, located, number_of, searched, lip, idp, irq};

use crate::system::{PlaceIndex, System, UnitIndex};
use descriptors::descriptor::{Descriptor, Logical, Match};
use registers::unit;

// A descriptor by its unit and its number there.
#[derive(Clone, Copy)]
pub struct Place {
    pub unit: u8,
    pub descriptor: u8,
}

impl PlaceIndex {
    pub(crate) fn unit(self) -> UnitIndex
        ensures { result.value ≡ self.value / 32 }
    {
        UnitIndex {
            value: self.value / 32,
        }
    }

    pub(crate) fn place(self) -> Place
        ensures { result ≡ place self.value }
    {
        Place {
            unit: (self.value / 32) as u8,
            descriptor: (self.value % 32) as u8,
        }
    }
}

// As the RDP and the IDP have what was found.
fn number_of(found: Option<usize>) -> u8
    ensures { result ≡ number_of found }
{
    match found {
        Some(i) => (i % 32) as u8,
        None => unit::NONE,
    }
}

impl System {
    // The descriptors of the units that there are.
    pub(crate) fn in_system(&self) -> &[Descriptor]
        ensures { result.now ≡ take (32 * present self.now) self.now.descriptors }
    {
        &self.descriptors[..32 * self.present()]
    }

    // Those of unit m.
    pub(crate) fn in_unit(&self, m: UnitIndex) -> &[Descriptor]
        ensures { result.now ≡ take 32 (drop (32 * m.value) self.now.descriptors) }
    {
        let from = 32 * m.value;
        &self.descriptors[from..from + 32]
    }

    // 4.5.3.1, and P4: one pass finds the match, or the lowest descriptor whose space alone differs.
    pub(crate) fn search(&self, logical: Logical) -> Result<PlaceIndex, Option<Place>>
        ensures { located result ≡ searched logical.page logical.number self.now }
    {
        let mut near = None;
        for (i, d) in self.in_system().iter().enumerate() {
            let i = PlaceIndex { value: i };
            match d.match_answer(logical) {
                Match::Yes => return Ok(i),
                Match::SpaceDiffers => near = near.or(Some(i.place())),
                Match::Disabled | Match::RangeDiffers | Match::BothDiffer => {}
            }
        }
        Err(near)
    }

    // 3.2.4: some descriptor of the unit has IP set.
    pub(crate) fn lip(self, m: UnitIndex) -> bool
        ensures { result ≡ lip m.value self }
    {
        self.in_unit(m).iter().any(|d| d.pending())
    }

    // 3.2.7: the number of the first that has.
    pub(crate) fn idp(self, m: UnitIndex) -> u8
        ensures { result ≡ idp m.value self }
    {
        number_of(self.in_unit(m).iter().position(|d| d.pending()))
    }

    // 2.14: the interrupt request line.
    pub(crate) fn irq(&self) -> bool
        ensures { result ≡ irq self.now }
    {
        self.shared.gsr.ie && self.in_system().iter().any(|d| d.pending())
    }
}
