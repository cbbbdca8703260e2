#![tactic(auto)]
// The bench: reads lines on standard input to its end, and writes one for each. Document 01, "The bench program".
use chip::system::System;
use std::io;
use std::io::{Read, Write};
use text::Text;

// Between two reads: the system, and the line that has begun.
#[derive(Drop)]
struct Bench {
    system: System,
    line: Text,
}

impl Bench {
    // Each byte of a part of the input: a line is answered when its line feed has come. The system goes by value, and the text is
    // taken out of the turn: with the system behind a `&mut` each line moves it more often.
    fn take<W: Write>(self, output: &mut W, part: &[u8]) -> io::Result<Bench> {
        let Bench {
            mut system,
            mut line,
        } = self;
        for &byte in part {
            if byte == b'\n' {
                let turn = lines::turn::answer(line, system);
                let text = turn.text;
                system = turn.system;
                line = Text::new();
                output.write_all(text.held())?;
            } else {
                line = line.push(byte);
            }
        }
        Ok(Bench { system, line })
    }
}

fn main(rt: HostRuntime) {
    let mut input = rt.stdin();
    let mut output = rt.stdout();
    let mut buffer = [0u8; 4096];
    let mut bench = Bench {
        system: System::nothing(),
        line: Text::new(),
    };
    // A proved loop has to end, and nothing says that the input does. So it counts its turns down, from a number that no run
    // uses up: by hand, as the mistake `turns_not_counted` is refused at that count (its place is `loop-turns-smaller`).
    let mut turns = u64::MAX;
    while turns > 0 {
        match input.read(&mut buffer) {
            Ok(0) | Err(_) => break,
            Ok(n) => {
                // Without a reader there is nothing left to do.
                match bench.take(&mut output, &buffer[..n]) {
                    Ok(next) => bench = next,
                    Err(_) => return,
                }
            }
        }
        turns -= 1;
    }
    // The last line feed may lack.
    if !bench.line.is_empty() {
        let turn = lines::turn::answer(bench.line, bench.system);
        let _ = output.write_all(turn.text.held());
    }
}
