// The bench: a line in, a line out.
ghost use Rattle.std.specs.Prelude.{◌≡◌};
ghost use Rattle.lines.specs.Line.{meaning};
ghost use Rattle.text.specs.Text.{held};
ghost use Rattle.lines.specs.Turn.{turn};

use chip::system::System;
use text::Text;

// What is printed for a line, and the whole system after it.
#[derive(Clone, Copy)]
pub struct Turn {
    pub text: Text,
    pub system: System,
}

pub fn answer(line: Text, system: System) -> Turn
    ensures { result ≡ turn (meaning (held line)) system }
{
    match crate::line::parse(line.held()) {
        Some(call) => {
            let outcome = system.perform(call);
            let text = crate::print::print(outcome.answer, outcome.irq);
            let system = outcome.system;
            Turn { text, system }
        }
        None => {
            let text = crate::print::bad();
            Turn { text, system }
        }
    }
}
