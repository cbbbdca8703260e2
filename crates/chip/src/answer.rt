// The answers, and document 01's number and values for each.
ghost use Rattle.std.specs.Prelude.{◌≡◌, [], ◌∷◌};
ghost use Rattle.chip.specs.Answer.{number, of_kind, at_place, carrying, values, refused, granted, reading, miscounted, passed};

use crate::search::Place;
use crate::system::System;

// What a host gets back in place of an answer.
#[derive(Clone, Copy)]
pub enum Refusal {
    Count = 1,
    Unit = 2,
    Register = 3,
    FunctionCode = 4,
    Address = 5,
    Interrupt = 6,
}

#[derive(Clone, Copy)]
pub enum Answer {
    Refused(Refusal),
    Done,
    Byte {
        byte: u8,
        near: Option<Place>,
    },
    Mapped {
        address: u32,
        place: Place,
        win: bool,
    },
    Violation {
        place: Place,
        win: bool,
    },
    Undefined(Option<Place>),
}

// The kinds of an answer that is no refusal. Numbers, and no enum: they are a field of what a C host gets.
pub const DONE: u8 = 1;

pub const BYTE: u8 = 2;

pub const MAPPED: u8 = 3;

pub const VIOLATION: u8 = 4;

pub const UNDEFINED: u8 = 5;

// An answer as numbers: what a kind of answer does not have is zero. Near is a flag with unit and descriptor beside it, and no
// `Option`, since a C host reads each from bits of its own.
#[derive(Clone, Copy)]
pub struct Values {
    pub number: u8,
    pub kind: u8,
    pub address: u32,
    pub unit: u8,
    pub descriptor: u8,
    pub win: bool,
    pub near: bool,
    pub byte: u8,
}

// The whole system after a call, the answer, and the interrupt request as it then stands.
#[derive(Clone, Copy)]
pub struct Outcome {
    pub system: System,
    pub answer: Answer,
    pub irq: bool,
}

// The whole system after a read, and the byte that it answers; a direct translation that finds no match has a reason (P4).
#[derive(Clone, Copy)]
pub struct Reading {
    pub system: System,
    pub byte: u8,
    pub near: Option<Place>,
}

impl Refusal {
    // By name, and no `From`: the claims and docs/PROMISES.md go by `number`.
    pub fn number(self) -> u8
        ensures { result ≡ number self }
    {
        self as u8
    }
}

impl Values {
    // An answer of this kind, with no other value.
    fn of(kind: u8) -> Values
        ensures { result ≡ of_kind kind }
    {
        Values {
            number: 0,
            kind,
            address: 0,
            unit: 0,
            descriptor: 0,
            win: false,
            near: false,
            byte: 0,
        }
    }

    // And this unit and descriptor.
    fn at(kind: u8, place: Place) -> Values
        ensures { result ≡ at_place kind place }
    {
        Values {
            unit: place.unit,
            descriptor: place.descriptor,
            ..Values::of(kind)
        }
    }

    // And those that are near, if any are (document 02, P4).
    fn carrying(kind: u8, near: Option<Place>) -> Values
        ensures { result ≡ carrying kind near 0 }
    {
        match near {
            Some(place) => Values {
                near: true,
                ..Values::at(kind, place)
            },
            None => Values::of(kind),
        }
    }
}

impl Answer {
    pub fn values(self) -> Values
        ensures { result ≡ values self }
    {
        match self {
            Answer::Refused(refusal) => Values {
                number: refusal.number(),
                ..Values::of(0)
            },
            Answer::Done => Values::of(DONE),
            Answer::Byte { byte, near } => Values {
                byte,
                ..Values::carrying(BYTE, near)
            },
            Answer::Mapped {
                address,
                place,
                win,
            } => Values {
                address,
                win,
                ..Values::at(MAPPED, place)
            },
            Answer::Violation { place, win } => Values {
                win,
                ..Values::at(VIOLATION, place)
            },
            Answer::Undefined(near) => Values::carrying(UNDEFINED, near),
        }
    }
}

// A check: the refusal where it applies.
pub fn refuse<R: Copy>(refusal: R, applies: bool) -> Result<(), R>
    ensures { result ≡ passed ((refusal, applies) ∷ []) }
{
    if applies { Err(refusal) } else { Ok(()) }
}

// Refusal 1.
pub fn miscounted(count: usize) -> bool
    ensures { result ≡ miscounted count }
{
    (count == 0) | (count > 6)
}

impl System {
    #[tactic(auto, unfolding(crate::specs::Answer::refused))]
    pub(crate) fn refused(self, refusal: Refusal) -> Outcome
        ensures { result ≡ refused refusal self }
    {
        Outcome {
            answer: Answer::Refused(refusal),
            irq: false,
            system: self,
        }
    }

    #[tactic(auto, unfolding(crate::specs::Answer::granted))]
    pub fn granted(self, answer: Answer) -> Outcome
        ensures { result ≡ granted answer self }
    {
        Outcome {
            answer,
            irq: self.irq(),
            system: self,
        }
    }

    pub(crate) fn reading(self, byte: u8) -> Reading
        ensures { result ≡ reading byte self }
    {
        Reading {
            byte,
            near: None,
            system: self,
        }
    }
}
