// The registers of which all units hold the same (handbook 3.2.1, 3.2.3, 3.2.8), and what the board is.
ghost use Rattle.std.specs.Prelude.{◌≡◌};
ghost use Rattle.registers.specs.Shared.{faulted, gsr_of, gsr_byte, entry, with_entry, with_gsr, with_ivr};

const F: u8 = 1 << 7;

const DF: u8 = 1 << 6;

const IE: u8 = 1 << 0;

#[derive(Clone, Copy)]
pub struct Gsr {
    pub f: bool,
    pub df: bool,
    pub ie: bool,
}

// What the board is: how many units it has.
#[derive(Clone, Copy)]
pub struct Board {
    pub count: usize,
}

#[derive(Clone, Copy)]
pub struct Shared {
    pub table: [u8; 16],
    pub gsr: Gsr,
    pub ivr: u8,
    pub board: Board,
}

impl Gsr {
    // 4.5.3.3.
    pub fn faulted(self) -> Gsr
        ensures { result ≡ faulted self }
    {
        Gsr {
            f: true,
            df: self.df | self.f,
            ie: self.ie,
        }
    }
}

// 3.2.3: as it is written.
impl From<u8> for Gsr {
    ghost from_gives = { λ value r. r ≡ gsr_of value };

    #[tactic(auto, using(masks::proofs::Bits::test_of))]
    fn from(value: u8) -> Gsr {
        Gsr {
            f: value & F != 0,
            df: value & DF != 0,
            ie: value & IE != 0,
        }
    }
}

// 3.2.3: as it is read.
impl From<Gsr> for u8 {
    ghost from_gives = { λ gsr r. r ≡ gsr_byte gsr };

    fn from(gsr: Gsr) -> u8 {
        128 * u8::from(gsr.f) + 64 * u8::from(gsr.df) + u8::from(gsr.ie)
    }
}

impl Shared {
    // 3.2.1.
    pub fn entry(self, i: usize) -> u8
        ensures { result ≡ entry self i }
    {
        if i < 16 { self.table[i] } else { 0 }
    }

    pub fn with_entry(mut self, i: usize, value: u8) -> Shared
        ensures { result ≡ with_entry self i value }
    {
        if i < 16 {
            self.table[i] = value;
        }
        self
    }

    // One setter for each, as of a unit: a field is nothing that a parameter can name.
    pub fn with_gsr(self, gsr: Gsr) -> Shared
        ensures { result ≡ with_gsr self gsr }
    {
        Shared { gsr, ..self }
    }

    pub fn with_ivr(self, ivr: u8) -> Shared
        ensures { result ≡ with_ivr self ivr }
    {
        Shared { ivr, ..self }
    }
}
