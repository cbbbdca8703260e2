// A bus access: normal address translation, and the two faults (handbook 4.5.3).
ghost use Rattle.std.specs.Prelude.{◌≡◌, ◌+◌, ◌*◌, ◌<◌, ◌^◌};
ghost use Rattle.chip.specs.Access.{reads_first, writes, touched, read_half, fault, violation, undefined, match_at, translate};

use crate::answer::{Answer, Outcome};
use crate::system::{PlaceIndex, System, UnitIndex};
use descriptors::descriptor::Logical;
use descriptors::status;
use registers::unit;
use registers::unit::Change;

// A bus cycle as the chip sees it (R/W).
#[derive(Clone, Copy)]
pub enum Cycle {
    Read,
    Write,
    ReadModifyWrite,
}

impl Cycle {
    // R/W as the cycle begins.
    fn reads_first(self) -> bool
        ensures { result ≡ reads_first self }
    {
        matches!(self, Cycle::Read | Cycle::ReadModifyWrite)
    }

    fn writes(self) -> bool
        ensures { result ≡ writes self }
    {
        matches!(self, Cycle::Write | Cycle::ReadModifyWrite)
    }

    // 4.5.3.2: the status of the segment that was used.
    fn touched(self, ssr: u8) -> u8
        ensures { result ≡ touched self ssr }
    {
        let used = status::used(ssr);
        if self.writes() {
            status::modified(used)
        } else {
            used
        }
    }
}

// By arithmetic, as the definition has it: by bytes the page would be taken apart and put together again. So it is where an address is
// taken apart (`translate`).
fn physical(page: u16, offset: u8) -> u32
    ensures { result ≡ 256 * page + offset }
{
    256 * u32::from(page) + u32::from(offset)
}

impl System {
    // 3.2.3, 3.2.4: what both faults do in every unit.
    #[tactic(auto, unfolding(crate::specs::Access::fault))]
    fn fault(self, rw: bool) -> System
        ensures { result ≡ fault rw self }
    {
        let t = self.in_all(Change::Rw(rw));
        let shared = t.shared;
        t.with_shared(shared.with_gsr(shared.gsr.faulted()))
    }

    // 4.5.3.3 in the unit that matches, 4.5.3.6 in the others.
    #[tactic(auto, unfolding(crate::specs::Access::violation))]
    fn violation(self, logical: Logical, m: UnitIndex, n: u8) -> System
        ensures { result ≡ violation logical.page logical.number m.value n self }
    {
        let t = self
            .fault(false)
            .in_all(Change::Report(unit::NO, unit::NONE));
        let unit = t
            .unit(m)
            .change(Change::Latch(logical))
            .change(Change::Report(unit::WV, n));
        t.with_unit(m, unit)
    }

    // 4.5.3.7.
    #[tactic(auto, unfolding(crate::specs::Access::undefined))]
    fn undefined(self, cycle: Cycle, logical: Logical) -> System
        ensures { result ≡ undefined cycle logical.page logical.number self }
    {
        self.fault(cycle.reads_first())
            .in_all(Change::Latch(logical))
            .in_all(Change::Report(unit::USA, unit::NONE))
    }

    // 4.5.3.2, item 3: what is done before R/W falls.
    #[tactic(auto, unfolding(crate::specs::Access::read_half, crate::specs::System::with_descriptor))]
    fn read_half(mut self, i: PlaceIndex, cycle: Cycle) -> System
        ensures { result ≡ read_half cycle i.value self }
    {
        if cycle.reads_first() {
            let d = self.descriptors[i.value];
            self.descriptors[i.value] = d.with_ssr(Cycle::Read.touched(d.ssr));
        }
        self
    }

    // 4.5.3.2, or a violation. The system is changed where it stands, and handed on once.
    #[tactic(auto, unfolding(crate::specs::Access::match_at, crate::specs::System::with_descriptor))]
    fn match_at(mut self, i: PlaceIndex, cycle: Cycle, logical: Logical, offset: u8) -> Outcome
        ensures { result ≡ match_at i.value cycle logical.page logical.number offset self }
    {
        let d = self.descriptors[i.value];
        let place = i.place();
        let win = d.protected();
        let mut answer = Answer::Violation { place, win: true };
        if cycle.writes() & win {
            self = self
                .read_half(i, cycle)
                .violation(logical, i.unit(), place.descriptor);
        } else {
            answer = Answer::Mapped {
                address: physical(d.physical_page(logical.page), offset),
                place,
                win,
            };
            self.descriptors[i.value] = d.with_ssr(cycle.touched(d.ssr));
        }
        self.granted(answer)
    }

    // One bus access: the function code selects the number, and the low eight address bits pass.
    #[tactic(auto, unfolding(crate::specs::Access::translate, crate::specs::Access::translate_at))]
    pub(crate) fn translate(self, function_code: u64, cycle: Cycle, address: u64) -> Outcome
        requires { address < 2 ^ 24 }
        ensures { result ≡ translate function_code cycle address self }
    {
        let logical = Logical {
            page: (address / 256) as u16,
            number: self.shared.entry(function_code as usize),
        };
        let offset = (address % 256) as u8;
        match self.search(logical) {
            Ok(i) => self.match_at(i, cycle, logical, offset),
            Err(near) => self
                .undefined(cycle, logical)
                .granted(Answer::Undefined(near)),
        }
    }
}
