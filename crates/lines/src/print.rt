// What an answer prints as: document 01, "The bench program". By hand, and no `Display`: of `{:X}` the library promises no bytes.
ghost use Rattle.std.specs.Prelude.{◌≡◌, ◌∷◌, ◌++◌};
ghost use Rattle.text.specs.Ascii.{ascii};
ghost use Rattle.text.specs.Digits.{hex_byte, hex_address};
ghost use Rattle.text.specs.Text.{with_bytes, text};
ghost use Rattle.lines.specs.Print.{flag, ended, named, placed, reason, printed, bad};
ghost use Rattle.chip.specs.Answer.{values, carrying, undefined};

use chip::answer::Answer;
use chip::search::Place;
use text::{Text, digits};

fn flag(b: bool) -> u8
    ensures { result ≡ flag b }
{
    if b { b'1' } else { b'0' }
}

fn named(text: Text, place: Place) -> Text
    ensures { result ≡ with_bytes text (named place.unit place.descriptor) }
{
    let unit = digits::hex_digit(u32::from(place.unit));
    text.with_bytes(&[unit, b' ']).with_hex(place.descriptor)
}

// How the lines of answers end, but for U: with IRQ; P and V with the unit, the descriptor and WIN before it.
fn ended(text: Text, irq: bool) -> Text
    ensures { result ≡ with_bytes text (ended irq) }
{
    text.with_bytes(&[b' ', flag(irq), b'\n'])
}

fn placed(text: Text, place: Place, win: bool, irq: bool) -> Text
    ensures { result ≡ with_bytes text (placed place.unit place.descriptor win irq) }
{
    let text = named(text, place).with_bytes(&[b' ', flag(win)]);
    ended(text, irq)
}

// P4: after U's IRQ.
fn reason(text: Text, near: Option<Place>) -> Text
    ensures { result ≡ with_bytes text (reason (carrying undefined near 0)) }
{
    match near {
        Some(place) => named(text, place),
        None => text.with_bytes(b"- --"),
    }
}

// And how three of them begin.
#[tactic(auto, using(text::proofs::Values::hex_bytes))]
fn mapped(address: u32) -> Text
    ensures { result ≡ text (ascii "P " ++ hex_address address ++ ascii " ") }
{
    let [_, high, middle, low] = address.to_be_bytes();
    Text::of(b"P ")
        .with_hex(high)
        .with_hex(middle)
        .with_hex(low)
        .with_bytes(b" ")
}

fn undefined(irq: bool) -> Text
    ensures { result ≡ text (ascii "U " ++ flag irq ∷ ascii " ") }
{
    Text::of(&[b'U', b' ', flag(irq), b' '])
}

fn read(byte: u8) -> Text
    ensures { result ≡ text (ascii "= " ++ hex_byte byte) }
{
    Text::of(b"= ").with_hex(byte)
}

// The answer to a line that means nothing.
pub(crate) fn bad() -> Text
    ensures { result ≡ text bad }
{
    Text::of(b"bad\n")
}

#[tactic(auto, unfolding(crate::specs::Print::printed))]
pub(crate) fn print(answer: Answer, irq: bool) -> Text
    ensures { result ≡ text (printed (values answer) irq) }
{
    match answer {
        Answer::Refused(refusal) => Text::of(b"no ")
            .with_number(refusal.number())
            .with_bytes(b"\n"),
        Answer::Done => ended(Text::of(b"ok"), irq),
        Answer::Byte { byte, .. } => ended(read(byte), irq),
        Answer::Mapped {
            address,
            place,
            win,
        } => placed(mapped(address), place, win, irq),
        Answer::Violation { place, win } => placed(Text::of(b"V "), place, win, irq),
        Answer::Undefined(near) => reason(undefined(irq), near).with_bytes(b"\n"),
    }
}
