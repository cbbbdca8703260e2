// What a line of the bench means: document 01, "The bench program".
ghost use Rattle.std.specs.Prelude.{◌+◌, ◌≤◌, ◌<◌, ◌≡◌, length};
ghost use Rattle.lines.specs.Line.{fits_at, fits, byte_at, address_at, unit, direction, start_of, write_of, read_of, access_of, acknowledge_of, meaning};

use chip::access::Cycle;
use chip::call::Call;
use chip::register::Operation;
use text::digits;

fn fits_at(form: u8, c: u8) -> bool
    ensures { result ≡ fits_at form c }
{
    match form {
        b'n' => digits::decimal(c),
        b'm' => digits::decimal(c) || c == b'-',
        b'h' => digits::hex(c),
        b'r' => matches!(c, b'R' | b'W' | b'M'),
        _ => c == form,
    }
}

#[tactic(auto, using(crate::proofs::Forms::fits_length))]
fn fits(form: &[u8], line: &[u8]) -> bool
    ensures { result ≡ fits form.now line.now }
{
    form.len() == line.len()
        && form
            .iter()
            .zip(line.iter())
            .all(|(form, c)| fits_at(*form, *c))
}

fn byte_at(line: &[u8], i: usize) -> u16
    requires { i + 1 < length line.now }
    ensures { result ≡ byte_at line.now i }
{
    digits::byte_of(line[i], line[i + 1])
}

// By arithmetic, and no `from_be_bytes`: where a digit is none, a part may be above a byte.
fn address_at(line: &[u8], i: usize) -> u64
    requires { i + 5 < length line.now }
    ensures { result ≡ address_at line.now i }
{
    65536 * u64::from(byte_at(line, i))
        + 256 * u64::from(byte_at(line, i + 2))
        + u64::from(byte_at(line, i + 4))
}

// By functions, and no `From`, here and below: the byte and the type are both of other crates.
fn unit(c: u8) -> Option<u64>
    ensures { result ≡ unit c }
{
    if c == b'-' {
        None
    } else {
        Some(u64::from(digits::digit(c)))
    }
}

fn direction(c: u8) -> Cycle
    ensures { result ≡ direction c }
{
    match c {
        b'R' => Cycle::Read,
        b'M' => Cycle::ReadModifyWrite,
        _ => Cycle::Write,
    }
}

// One function for each form: what a line of that form asks for.
fn start(line: &[u8]) -> Call
    requires { 5 ≤ length line.now }
    ensures { result ≡ start_of line.now }
{
    let count = u64::from(digits::digit(line[2]));
    let selected = unit(line[4]);
    Call::Start { count, selected }
}

fn write(line: &[u8]) -> Call
    requires in_bounds { 9 ≤ length line.now }
    requires line_bound { byte_at line.now 7 < 256 }
    ensures { result ≡ write_of line.now }
{
    let unit = u64::from(digits::digit(line[2]));
    let address = u64::from(byte_at(line, 4));
    let operation = Operation::Write(byte_at(line, 7) as u8);
    Call::Register {
        unit,
        address,
        operation,
    }
}

fn read(line: &[u8]) -> Call
    requires { 6 ≤ length line.now }
    ensures { result ≡ read_of line.now }
{
    let unit = u64::from(digits::digit(line[2]));
    let address = u64::from(byte_at(line, 4));
    Call::Register {
        unit,
        address,
        operation: Operation::Read,
    }
}

fn access(line: &[u8]) -> Call
    requires { 12 ≤ length line.now }
    ensures { result ≡ access_of line.now }
{
    let function_code = u64::from(digits::digit(line[2]));
    let cycle = direction(line[4]);
    let address = address_at(line, 6);
    Call::Access {
        function_code,
        cycle,
        address,
    }
}

fn acknowledge(line: &[u8]) -> Call
    requires { 3 ≤ length line.now }
    ensures { result ≡ acknowledge_of line.now }
{
    Call::Acknowledge {
        unit: u64::from(digits::digit(line[2])),
    }
}

// Test by test, and no table: each form has a function of its own, which asks for the length that its test has shown.
#[tactic(auto, using(crate::proofs::Forms::fits_long, crate::proofs::Forms::write_small), unfolding(crate::specs::Line::meaning))]
pub(crate) fn parse(line: &[u8]) -> Option<Call>
    ensures { result ≡ meaning line.now }
{
    if fits(b"S n m", line) {
        return Some(start(line));
    }
    if fits(b"W n hh hh", line) {
        return Some(write(line));
    }
    if fits(b"G n hh", line) {
        return Some(read(line));
    }
    if fits(b"T h r hhhhhh", line) {
        return Some(access(line));
    }
    if fits(b"A n", line) {
        return Some(acknowledge(line));
    }
    None
}
