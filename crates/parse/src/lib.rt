// The event that a line of text gives.

#![tactic(auto)]

ghost use Rattle.std.specs.Prelude.{◌≡◌, ◌≤◌, ◌<◌, length};
ghost use Rattle.area.specs.Area.{onto};
ghost use Rattle.text.specs.Fields.{fields};
ghost use Rattle.text.specs.Lines.{fields_of_texts, settings_of_fields, read_settings};
ghost use Rattle.parse.specs.Answers.{parsed, with_room, answer_to, bytes_read, settings_answer};
ghost use Rattle.parse.specs.Steps.{WordIs, Closed, FieldIs, NumbersAre, ReadingIs};

pub mod for_c;

use text::Event;

// The four numbers of the settings line.
#[derive(Clone, Copy)]
pub struct SettingsLine {
    pub places: u64,
    pub size: u64,
    pub entries: u64,
    pub chunks: u64,
}

// A field as one number, a 1 and its bytes, and where it ends.
#[derive(Clone, Copy)]
pub struct Word {
    pub packed: u64,
    pub end: usize,
}

// A number, and where the next field starts; past the end there is none.
#[derive(Clone, Copy)]
pub struct Field {
    pub value: u64,
    pub next: usize,
}

// The numbers of a kind, and where the next field starts.
#[derive(Clone, Copy)]
pub struct Numbers {
    pub a: u64,
    pub b: u64,
    pub c: u64,
    pub next: usize,
}

// An event, and where the text of its data starts if it has data.
#[derive(Clone, Copy)]
pub struct Reading {
    pub event: Event,
    pub digits: Option<usize>,
}

// The first field of a text, as the number that a word is looked up by. No word has more than 7 bytes, so the loop is unrolled.
#[tactic(auto, using(text::proofs::Fields::front_nothing, text::proofs::Packed::packed_none, text::proofs::Packed::packed_turn, text::proofs::Packed::packed_fits, crate::proofs::Laws::end_turn, crate::proofs::Laws::word_long))]
fn first_word(body: &[u8]) -> Option<Word>
    ensures { WordIs body.now result }
{
    let mut packed: u64 = 1;
    for (i, b) in body.iter().enumerate() {
        if *b == b',' {
            return Some(Word { packed, end: i });
        }
        if i == 7 {
            return None;
        }
        packed = 256 * packed + *b as u64;
    }
    Some(Word {
        packed,
        end: body.len(),
    })
}

// The number in the field from a place to its end, where its digits spell this number.
fn closed(body: &[u8], at: usize, end: usize, number: u64) -> Option<Field>
    requires { Closed body.now at end number }
    ensures { FieldIs body.now at result }
{
    let value = decimal::whole(&body[at..end], number)?;
    Some(Field {
        value,
        next: end + 1,
    })
}

// The number in the field that starts at a place, in one pass.
#[tactic(auto, using(crate::proofs::Laws::from_past, crate::proofs::Laws::first_of_none, crate::proofs::Laws::closed_end, crate::proofs::Laws::number_turn, crate::proofs::Laws::number_stop))]
fn next_number(body: &[u8], at: usize) -> Option<Field>
    ensures { FieldIs body.now at result }
{
    if body.len() < at {
        return None;
    }
    let mut number: u64 = 0;
    for i in at..body.len() {
        if body[i] == b',' {
            return closed(body, at, i, number);
        }
        number = decimal::push_digit(number, body[i])?;
    }
    closed(body, at, body.len(), number)
}

// The n numbers from the field that starts at a place. With one caller it is compiled in place, and its answer stays in registers.
#[tactic(auto, using(crate::proofs::Laws::three_0, crate::proofs::Laws::wrong_1, crate::proofs::Laws::wrong_2, crate::proofs::Laws::wrong_3))]
fn numbers_from(body: &[u8], at: usize, n: u8) -> Option<Numbers>
    requires { n ≤ 3 }
    ensures { NumbersAre n body.now at result }
{
    if n == 0 {
        return Some(Numbers {
            a: 0,
            b: 0,
            c: 0,
            next: at,
        });
    }
    let first = next_number(body, at)?;
    if n == 1 {
        return Some(Numbers {
            a: first.value,
            b: 0,
            c: 0,
            next: first.next,
        });
    }
    let second = next_number(body, first.next)?;
    if n == 2 {
        return Some(Numbers {
            a: first.value,
            b: second.value,
            c: 0,
            next: second.next,
        });
    }
    let third = next_number(body, second.next)?;
    Some(Numbers {
        a: first.value,
        b: second.value,
        c: third.value,
        next: third.next,
    })
}

// The event of a text without its line feed.
#[tactic(auto, using(crate::proofs::Laws::unnamed, crate::proofs::Laws::kind_first, crate::proofs::Laws::row_of, crate::proofs::Laws::row_few, crate::proofs::Laws::body_wrong, crate::proofs::Laws::body_missing, crate::proofs::Laws::from_past))]
fn read_body(body: &[u8], size: usize) -> Option<Reading>
    ensures { ReadingIs size body.now result }
{
    let word = first_word(body)?;
    let kind = text::find_kind(word.packed)?;
    let shape = text::shape_of(kind);
    let numbers = numbers_from(body, word.end + 1, shape.numbers)?;
    let next = numbers.next;
    let event = Event {
        kind: kind as u64,
        a: numbers.a,
        b: numbers.b,
        c: numbers.c,
    };
    if shape.payload {
        if body.len() < next {
            return None;
        }
        if hexadecimal::is_bytes(&body[next..], size) {
            return Some(Reading {
                event,
                digits: Some(next),
            });
        }
        return None;
    }
    if body.len() < next {
        return Some(Reading {
            event,
            digits: None,
        });
    }
    None
}

// The same, with the data written where it is lent.
#[tactic(auto, using(crate::proofs::Laws::part_all, crate::proofs::Laws::accepted, crate::proofs::Laws::filled, crate::proofs::Laws::room_unasked, crate::proofs::Laws::room_right, area::proofs::Laws::onto_nothing, hexadecimal::proofs::Laws::is_bytes, hexadecimal::proofs::Laws::unhex_length))]
fn parse_body(body: &[u8], size: usize, data: &mut [u8]) -> Option<Event>
    ensures { (result ≡ answer_to (with_room size (length «data».old) (fields_of_texts size (fields body.now))))
        × («data».new
        ≡ onto 0 (bytes_read (with_room size (length «data».old) (fields_of_texts size (fields body.now)))) «data».old) }
{
    let reading = read_body(body, size)?;
    if let Some(from) = reading.digits {
        if data.len() != size {
            return None;
        }
        hexadecimal::decode(&body[from..], data);
    }
    Some(reading.event)
}

// The event of a line whose data has size bytes; data is written where it is lent, once the whole line is accepted.
#[tactic(auto, using(text::proofs::Lines::line_not_empty, crate::proofs::Laws::fields_line, crate::proofs::Laws::parsed_as))]
pub fn parse(line: &[u8], size: usize, data: &mut [u8]) -> Option<Event>
    ensures { (result ≡ answer_to (parsed size (length «data».old) line.now))
        × («data».new ≡ onto 0 (bytes_read (parsed size (length «data».old) line.now)) «data».old) }
{
    if text::is_line(line) {
        let end = line.len() - 1;
        return parse_body(&line[..end], size, data);
    }
    None
}

// The settings of a text without its line feed.
#[tactic(auto, using(crate::proofs::Laws::wrong_1, crate::proofs::Laws::wrong_2, crate::proofs::Laws::answer_none, crate::proofs::Laws::first_wrong, crate::proofs::Laws::others_wrong))]
fn settings_body(body: &[u8]) -> Option<SettingsLine>
    ensures { result ≡ settings_answer (settings_of_fields (fields body.now)) }
{
    let places = next_number(body, 0)?;
    let size = next_number(body, places.next)?;
    let entries = next_number(body, size.next)?;
    let chunks = next_number(body, entries.next)?;
    if chunks.next <= body.len() {
        return None;
    }
    Some(SettingsLine {
        places: places.value,
        size: size.value,
        entries: entries.value,
        chunks: chunks.value,
    })
}

// The settings that a line gives; whether they are within limits is not asked.
#[tactic(auto, using(text::proofs::Lines::line_not_empty, crate::proofs::Laws::settings_line, crate::proofs::Laws::settings_no_line, crate::proofs::Laws::answer_none))]
pub fn parse_settings(line: &[u8]) -> Option<SettingsLine>
    ensures { result ≡ settings_answer (read_settings line.now) }
{
    if text::is_line(line) {
        let end = line.len() - 1;
        return settings_body(&line[..end]);
    }
    None
}
