// The calls that a host can make, by name: one function takes any of them.
ghost use Rattle.std.specs.Prelude.{◌≡◌, Ok};
ghost use Rattle.chip.specs.Answer.{passed};
ghost use Rattle.chip.specs.Call.{checks, carried_out, performed};

use crate::access::Cycle;
use crate::answer::{Answer, Outcome, Refusal, miscounted, refuse};
use crate::register::{Operation, Register};
use crate::reset::unselectable;
use crate::system::{System, UnitIndex};
use registers::shared::Board;

// Who is selected at start and reset is the unit that is chip-selected, if any is.
#[derive(Clone, Copy)]
pub enum Call {
    Start {
        count: u64,
        selected: Option<u64>,
    },
    Reset {
        selected: Option<u64>,
    },
    Access {
        function_code: u64,
        cycle: Cycle,
        address: u64,
    },
    Register {
        unit: u64,
        address: u64,
        operation: Operation,
    },
    Acknowledge {
        unit: u64,
    },
}

impl System {
    // "Numbers the host gets back": what is checked, in this order.
    fn check(&self, call: Call) -> Result<(), Refusal>
        ensures { result ≡ passed (checks call self.now) }
    {
        let present = self.shared.board.count;
        match call {
            Call::Start { count, selected } => {
                refuse(Refusal::Count, miscounted(count as usize))?;
                refuse(Refusal::Unit, unselectable(selected, count))
            }
            Call::Reset { selected } => {
                refuse(Refusal::Count, miscounted(present))?;
                refuse(Refusal::Unit, unselectable(selected, present as u64))
            }
            Call::Access {
                function_code,
                address,
                ..
            } => {
                refuse(Refusal::Count, miscounted(present))?;
                refuse(Refusal::FunctionCode, function_code > 15)?;
                refuse(Refusal::Address, address > 0xFF_FFFF)
            }
            Call::Register { unit, address, .. } => {
                refuse(Refusal::Count, miscounted(present))?;
                refuse(Refusal::Unit, unit >= present as u64)?;
                refuse(Refusal::Register, address > 0x3F)
            }
            Call::Acknowledge { unit } => {
                refuse(Refusal::Count, miscounted(present))?;
                refuse(Refusal::Unit, unit >= present as u64)?;
                refuse(Refusal::Interrupt, !self.irq())
            }
        }
    }

    #[tactic(auto, using(crate::proofs::Checked::acknowledged), unfolding(crate::specs::Call::performed, crate::specs::Answer::granted))]
    pub fn perform(self, call: Call) -> Outcome
        ensures { result ≡ performed call self }
    {
        if let Err(refusal) = self.check(call) {
            return self.refused(refusal);
        }
        match call {
            Call::Start { count, selected } => {
                let board = Board {
                    count: count as usize,
                };
                System::fresh(board, selected).granted(Answer::Done)
            }
            Call::Reset { selected } => {
                System::fresh(self.shared.board, selected).granted(Answer::Done)
            }
            Call::Access {
                function_code,
                cycle,
                address,
            } => self.translate(function_code, cycle, address),
            Call::Register {
                unit,
                address,
                operation,
            } => {
                let m = UnitIndex {
                    value: unit as usize,
                };
                self.operate(operation, Register::at(address), m)
            }
            // 4.6.2.1. That IRQ stands was checked.
            Call::Acknowledge { .. } => Outcome {
                answer: Answer::Byte {
                    byte: self.shared.ivr,
                    near: None,
                },
                irq: true,
                system: self,
            },
        }
    }
}
