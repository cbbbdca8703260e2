// The registers by their addresses (handbook 4.6.1, Table 4-3).
ghost use Rattle.std.specs.Prelude.{◌≡◌, ◌<◌};
ghost use Rattle.chip.specs.Register.{register_at, read, write, write_gsr, operate};

use crate::answer::{Answer, Outcome, Reading};
use crate::system::{System, UnitIndex};
use registers::shared::Gsr;
use registers::unit;
use registers::unit::Change;

// A row of the table.
#[derive(Clone, Copy)]
pub enum Register {
    Ast(usize),
    Ac(usize),
    Dp,
    Ivr,
    Gsr,
    Lsr,
    Ssr,
    Idp,
    Rdp,
    DirectTranslation,
    LoadDescriptor,
    Null,
}

// A read, or a write of the byte on the bus.
#[derive(Clone, Copy)]
pub enum Operation {
    Read,
    Write(u8),
}

impl Register {
    // The row of an address; any other is a null operation. No `From`: an address is looked up in a table, and is no register.
    #[tactic(auto, unfolding(crate::specs::Register::register_at))]
    pub(crate) fn at(address: u64) -> Register
        ensures { result ≡ register_at address }
    {
        match address {
            0x00..=0x1F => {
                if address % 2 == 0 {
                    Register::Ast((address / 2) as usize)
                } else {
                    Register::Null
                }
            }
            0x20..=0x28 => Register::Ac((address - 0x20) as usize),
            0x29 => Register::Dp,
            0x2B => Register::Ivr,
            0x2D => Register::Gsr,
            0x2F => Register::Lsr,
            0x31 => Register::Ssr,
            0x39 => Register::Idp,
            0x3B => Register::Rdp,
            0x3D => Register::DirectTranslation,
            0x3F => Register::LoadDescriptor,
            _ => Register::Null,
        }
    }
}

impl System {
    // 4.6.2.2, and the operations that a read designates.
    #[tactic(auto, unfolding(crate::specs::Register::read))]
    fn read(self, register: Register, m: UnitIndex) -> Reading
        ensures { result ≡ read register m.value self }
    {
        let unit = self.unit(m);
        match register {
            Register::Ast(i) => self.reading(self.shared.entry(i)),
            Register::Ac(i) => self.reading(unit.ac(i)),
            Register::Dp => self.reading(unit.dp),
            Register::Ivr => self.reading(self.shared.ivr),
            Register::Gsr => self.reading(u8::from(self.shared.gsr)),
            Register::Lsr => self.reading(unit.lsr(self.lip(m))),
            Register::Ssr => self.transfer(m),
            Register::Idp => self.reading(self.idp(m)),
            Register::Rdp => self.reading(unit.rdp),
            Register::DirectTranslation => self.direct_translation(m),
            Register::LoadDescriptor => self.load(m),
            Register::Null => self.reading(0xFF),
        }
    }

    // 3.2.3: clearing F clears L4-L7.
    #[tactic(auto, unfolding(crate::specs::Register::write_gsr))]
    fn write_gsr(self, value: u8) -> System
        ensures { result ≡ write_gsr value self }
    {
        let gsr = Gsr::from(value);
        let t = self.with_shared(self.shared.with_gsr(gsr));
        if gsr.f {
            t
        } else {
            t.in_all(Change::L(unit::NO))
        }
    }

    // 4.6.3.1, 4.6.2.4.
    #[tactic(auto, unfolding(crate::specs::Register::write))]
    fn write(self, register: Register, m: UnitIndex, value: u8) -> System
        ensures { result ≡ write register m.value value self }
    {
        match register {
            Register::Ast(i) => self.with_shared(self.shared.with_entry(i, value)),
            Register::Ac(i) => self.in_all(Change::Ac(i, value)),
            Register::Dp => self.in_all(Change::Dp(value)),
            Register::Ivr => self.with_shared(self.shared.with_ivr(value)),
            Register::Gsr => self.write_gsr(value),
            Register::Lsr => self.in_all(Change::Lsr(value)),
            Register::Ssr => self.write_status(m, value),
            Register::Idp
            | Register::Rdp
            | Register::DirectTranslation
            | Register::LoadDescriptor
            | Register::Null => self,
        }
    }

    // One register access by byte.
    #[tactic(auto, unfolding(crate::specs::Register::operate))]
    pub(crate) fn operate(self, operation: Operation, register: Register, m: UnitIndex) -> Outcome
        ensures { result ≡ operate operation register m.value self }
    {
        match operation {
            Operation::Read => {
                let reading = self.read(register, m);
                let near = reading.near;
                reading.system.granted(Answer::Byte {
                    byte: reading.byte,
                    near,
                })
            }
            Operation::Write(value) => self.write(register, m, value).granted(Answer::Done),
        }
    }
}
