// The line of text of an event.

#![tactic(auto)]

ghost use Rattle.std.specs.Prelude.{◌≡◌, ◌∷◌, ◌+◌, ◌*◌, ◌≤◌, length};
ghost use Rattle.rules.specs.Event.{kind_count, fields_brought};
ghost use Rattle.area.specs.Area.{onto};
ghost use Rattle.decimal.specs.Decimal.{decimal};
ghost use Rattle.hexadecimal.specs.Hex.{hex};
ghost use Rattle.text.specs.Fields.{comma};
ghost use Rattle.text.specs.Lines.{line_of};
ghost use Rattle.print.specs.Answers.{printed, line_after};
ghost use Rattle.print.specs.Steps.{number_texts, length_of_line};

pub mod for_c;

use text::Event;

// How long the first n of an event's numbers are, a comma before each.
#[tactic(auto, using(crate::proofs::Laws::length_0, crate::proofs::Laws::length_1, crate::proofs::Laws::length_2, crate::proofs::Laws::length_3))]
fn numbers_length(event: Event, n: u8) -> usize
    requires { n ≤ 3 }
    ensures { (result ≡ length (number_texts n event.a event.b event.c)) × (result ≤ 63) }
{
    if n == 0 {
        return 0;
    }
    let first = 1 + decimal::width(event.a);
    if n == 1 {
        return first;
    }
    let second = first + 1 + decimal::width(event.b);
    if n == 2 {
        return second;
    }
    second + 1 + decimal::width(event.c)
}

// The length of the line; none where the event is not well formed.
#[tactic(auto, using(crate::proofs::Laws::unformed, crate::proofs::Laws::kind_of, crate::proofs::Laws::known, crate::proofs::Laws::few_numbers))]
fn line_length(event: Event, data: &[u8], size: usize) -> Option<usize>
    ensures { result ≡ length_of_line size (fields_brought event.kind event.a event.b event.c «data».now) }
{
    let kind = event.kind;
    if kind == 0 {
        return None;
    }
    if (text::KINDS as u64) < kind {
        return None;
    }
    let shape = text::shape_of(kind as usize);
    let word = shape.len as usize;
    let plain = word + numbers_length(event, shape.numbers) + 1;
    if shape.payload {
        if data.len() != size {
            return None;
        }
        if text::LONGEST / 2 <= size {
            return None;
        }
        let loaded = plain + 1 + 2 * size;
        if text::LONGEST < loaded {
            return None;
        }
        return Some(loaded);
    }
    Some(plain)
}

// A comma and a number, from a place on; the place after them.
pub fn put_number(number: u64, line: &mut [u8], at: usize) -> usize
    requires { at + (1 + length (decimal number)) ≤ length line.old }
    ensures { (result ≡ at + (1 + length (decimal number))) × (line.new ≡ onto at (comma ∷ decimal number) line.old) }
{
    area::put(line, at, b',');
    decimal::write(number, line, at + 1)
}

// The first n of an event's numbers, from a place on; the place after them.
#[tactic(auto, using(crate::proofs::Laws::room_1, crate::proofs::Laws::room_2, crate::proofs::Laws::length_3))]
pub fn put_numbers(event: Event, n: u8, line: &mut [u8], at: usize) -> usize
    requires { (n ≤ 3) × (at + length (number_texts n event.a event.b event.c) ≤ length line.old) }
    ensures { (result ≡ at + length (number_texts n event.a event.b event.c))
        × (line.new ≡ onto at (number_texts n event.a event.b event.c) line.old) }
{
    if n == 0 {
        return at;
    }
    let second = put_number(event.a, line, at);
    if n == 1 {
        return second;
    }
    let third = put_number(event.b, line, second);
    if n == 2 {
        return third;
    }
    put_number(event.c, line, third)
}

// A comma and data, from a place on; the place after them.
fn put_data(data: &[u8], line: &mut [u8], at: usize) -> usize
    requires { at + (1 + 2 * length «data».now) ≤ length line.old }
    ensures { (result ≡ at + (1 + 2 * length «data».now))
        × (line.new ≡ onto at (comma ∷ hex «data».now) line.old) }
{
    area::put(line, at, b',');
    hexadecimal::encode(data, line, at + 1);
    at + 1 + 2 * data.len()
}

// The whole line, at the front of an area that holds it.
#[tactic(auto, using(crate::proofs::Laws::line_length, crate::proofs::Laws::loaded_length, crate::proofs::Laws::plain_length, crate::proofs::Laws::few_numbers, text::proofs::Laws::row_numbers, text::proofs::Laws::row_payload))]
fn write_line(event: Event, data: &[u8], line: &mut [u8])
    requires { (1 ≤ event.kind) × (event.kind ≤ kind_count)
        × (length (line_of (fields_brought event.kind event.a event.b event.c «data».now)) ≤ length line.old) }
    ensures { line.new ≡ onto 0 (line_of (fields_brought event.kind event.a event.b event.c «data».now)) line.old }
{
    let kind = event.kind as usize;
    let at = text::put_word(kind, line);
    let shape = text::shape_of(kind);
    let next = put_numbers(event, shape.numbers, line, at);
    if shape.payload {
        let end = put_data(data, line, next);
        area::put(line, end, b'\n');
        return;
    }
    area::put(line, next, b'\n');
}

// The line of an event whose data has size bytes, at the front of the lent area; the bytes past it stay. None is a no to question 3.
pub fn print(event: Event, data: &[u8], size: usize, line: &mut [u8]) -> Option<usize>
    ensures { (result ≡ printed size (fields_brought event.kind event.a event.b event.c «data».now) (length line.old))
        × (line.new ≡ line_after size (fields_brought event.kind event.a event.b event.c «data».now) line.old) }
{
    let n = line_length(event, data, size)?;
    if line.len() < n {
        return None;
    }
    write_line(event, data, line);
    Some(n)
}
