// The registers that a unit has of its own: accumulator, descriptor pointers, local status (handbook 3.2.2 to 3.2.6).
ghost use Rattle.std.specs.Prelude.{◌≡◌, ◌<◌};
ghost use Rattle.pieces.specs.Pieces.{list_of};
ghost use Rattle.registers.specs.Unit.{marked, accumulator_of, rdp_of, l_of, rw_of, local, ac, marks, word, segment, needed, consistent, for_translation, for_load};
ghost use Rattle.registers.specs.Unit.{with_byte, with_dp, with_rdp, with_l, with_rw, report, latch, take};
ghost use Rattle.registers.specs.Unit.{translated, held_lsr, lsr};
ghost use Rattle.registers.specs.Change.{changed};

use descriptors::descriptor::{Descriptor, Logical};
use descriptors::status;

// 3.2.4: what the last event was, in L7 to L4. Numbers and no enum: a write of the LSR may leave any four bits there (`l_of`), and
// an image holds them.
pub const NO: u8 = 0b0000;

pub const DT: u8 = 0b1000;

pub const LD: u8 = 0b1001;

pub const USA: u8 = 0b1010;

pub const WV: u8 = 0b1100;

// 3.2.6, 3.2.7: no valid result, no valid interrupt. A byte and no `Option`: an image holds any byte as RDP, which is read as it is
// before the image's rules are asked (`image::block::unit_of`).
pub const NONE: u8 = 0x80;

const RW: u8 = 1 << 3;

// A byte of the accumulator, and whether it was last modified as a result of a global write (3.2.4).
#[derive(Clone, Copy)]
pub struct Byte {
    pub value: u8,
    pub global: bool,
}

#[derive(Clone, Copy)]
pub struct Unit {
    pub accumulator: [Byte; 9],
    pub dp: u8,
    pub rdp: u8,
    pub l: u8,
    pub rw: bool,
}

// The accumulator bytes that all units must have alike, for one operation or the other (3.2.4). By name, and no list: GAL is tested
// after GAT; with one list for each a load costs 250 instructions more than the 8,423 that it cost before.
#[derive(Clone, Copy)]
pub enum Bytes {
    Translation,
    Load,
}

// What an event does to every unit alike. By name, and no closure: of a closure a promise can say only which results it may have, so
// that each call would show again what its change does.
#[derive(Clone, Copy)]
pub enum Change {
    Ac(usize, u8),
    Dp(u8),
    Lsr(u8),
    L(u8),
    Rw(bool),
    Latch(Logical),
    Report(u8, u8),
}

// 3.2.6: what the register can hold of a byte.
pub fn rdp_of(value: u8) -> u8
    ensures { result ≡ rdp_of value }
{
    if value & NONE != 0 { NONE } else { value % 32 }
}

// 3.2.4: L and RW, from the LSR's byte.
pub fn l_of(value: u8) -> u8
    ensures { result ≡ l_of value }
{
    value / 16
}

#[tactic(auto, using(masks::proofs::Bits::test_of))]
pub fn rw_of(value: u8) -> bool
    ensures { result ≡ rw_of value }
{
    value & RW != 0
}

fn local(value: u8) -> Byte
    ensures { result ≡ local value }
{
    Byte {
        value,
        global: false,
    }
}

#[tactic(auto, unfolding(masks::specs::Fields::bit))]
fn marked(value: u8, marks: u16, i: usize) -> Byte
    requires { i < 9 }
    ensures { result ≡ marked value marks i }
{
    Byte {
        value,
        global: (marks >> i) % 2 == 1,
    }
}

// 3.2.2, 3.2.4: nine bytes, and their marks as `Unit::marks` has them.
pub fn accumulator_of(values: [u8; 9], marks: u16) -> [Byte; 9]
    ensures { result ≡ accumulator_of values marks }
{
    std::array::from_fn(|i| marked(values[i], marks, i))
}

impl Unit {
    fn with_byte(mut self, i: usize, byte: Byte) -> Unit
        ensures { result ≡ with_byte self i byte }
    {
        if i < 9 {
            self.accumulator[i] = byte;
        }
        self
    }

    // One setter for each register: a field is nothing that a parameter can name.
    fn with_dp(self, dp: u8) -> Unit
        ensures { result ≡ with_dp self dp }
    {
        Unit { dp, ..self }
    }

    fn with_rdp(self, rdp: u8) -> Unit
        ensures { result ≡ with_rdp self rdp }
    {
        Unit { rdp, ..self }
    }

    fn with_l(self, l: u8) -> Unit
        ensures { result ≡ with_l self l }
    {
        Unit { l, ..self }
    }

    fn with_rw(self, rw: bool) -> Unit
        ensures { result ≡ with_rw self rw }
    {
        Unit { rw, ..self }
    }

    // 3.2.4, 3.2.6: what the last event left. Two bytes and no type for both: each call names the two registers' contents by the handbook.
    pub fn report(self, l: u8, rdp: u8) -> Unit
        ensures { result ≡ report l rdp self }
    {
        self.with_l(l).with_rdp(rdp)
    }

    // 4.5.3.3.
    fn latch(self, logical: Logical) -> Unit
        ensures { result ≡ latch logical.page logical.number self }
    {
        let [high, low] = logical.page.to_be_bytes();
        self.with_byte(0, local(high))
            .with_byte(1, local(low))
            .with_byte(6, local(logical.number))
    }

    // 4.6.2.3. No byte is marked.
    pub fn take(self, d: Descriptor) -> Unit
        ensures { result ≡ take d self }
    {
        let accumulator = d.bytes().map(local);
        Unit {
            accumulator,
            ..self
        }
    }

    // 4.6.3.3.
    pub fn translated(self, page: u16, number: u8) -> Unit
        ensures { result ≡ translated page number self }
    {
        let [high, low] = page.to_be_bytes();
        self.with_byte(4, local(high))
            .with_byte(5, local(low))
            .with_dp(number)
            .report(DT, number)
    }

    pub fn change(self, change: Change) -> Unit
        ensures { result ≡ changed change self }
    {
        match change {
            Change::Ac(i, value) => self.with_byte(
                i,
                Byte {
                    value,
                    global: true,
                },
            ),
            Change::Dp(value) => self.with_dp(value % 32),
            Change::Lsr(value) => self.with_l(l_of(value)).with_rw(rw_of(value)),
            Change::L(l) => self.with_l(l),
            Change::Rw(rw) => self.with_rw(rw),
            Change::Latch(logical) => self.latch(logical),
            Change::Report(l, rdp) => self.report(l, rdp),
        }
    }

    // 3.2.4.
    pub fn consistent(self, bytes: Bytes) -> bool
        ensures { result ≡ consistent (needed bytes) self }
    {
        match bytes {
            Bytes::Translation => self.gat(),
            Bytes::Load => self.gal(),
        }
    }

    // 3.2.4: GAT. An array for each of the two, and no list that both share: a search of such a list costs a load 250 instructions (`Bytes`).
    fn gat(self) -> bool
        ensures { result ≡ consistent for_translation self }
    {
        [0, 1, 6].iter().all(|&i| self.accumulator[i].global)
    }

    // 3.2.4: GAL, which asks more than GAT.
    fn gal(self) -> bool
        ensures { result ≡ consistent for_load self }
    {
        self.gat() && [2, 3, 8].iter().all(|&i| self.accumulator[i].global)
    }

    // 3.2.2: the nine bytes.
    pub fn values(self) -> [u8; 9]
        ensures { result ≡ list_of 9 (ac self) }
    {
        self.accumulator.map(|byte| byte.value)
    }

    // 3.2.4: the marks, AC0's in bit 0.
    pub fn marks(self) -> u16
        ensures { result ≡ marks self }
    {
        let mut marks = 0;
        for (i, byte) in self.accumulator.iter().enumerate() {
            marks |= u16::from(byte.global) << i;
        }
        marks
    }

    // 3.2.4: what a unit holds of its LSR; the other bits are worked out.
    pub fn held_lsr(self) -> u8
        ensures { result ≡ held_lsr self }
    {
        16 * (self.l % 16) + 8 * u8::from(self.rw)
    }

    // 3.2.4: the register as it is read.
    pub fn lsr(self, lip: bool) -> u8
        ensures { result ≡ lsr self lip }
    {
        self.held_lsr() + 4 * u8::from(self.gat()) + 2 * u8::from(self.gal()) + u8::from(lip)
    }

    // 3.2.2.
    pub fn ac(self, i: usize) -> u8
        ensures { result ≡ ac self i }
    {
        if i < 9 { self.accumulator[i].value } else { 0 }
    }

    fn word(self, i: usize) -> u16
        requires { i < 8 }
        ensures { result ≡ word self i }
    {
        pieces::join(self.ac(i), self.ac(i + 1))
    }

    // 4.6.3.3: the logical address to be translated.
    pub fn page(self) -> u16
        ensures { result ≡ word self 0 }
    {
        self.word(0)
    }

    // Table 3-1: the descriptor about to be loaded.
    pub fn segment(self) -> Descriptor
        ensures { result ≡ segment self }
    {
        Descriptor {
            lba: self.word(0),
            lam: self.word(2),
            pba: self.word(4),
            asn: self.ac(6),
            ssr: status::clean(self.ac(7)),
            asm: self.ac(8),
        }
    }
}
