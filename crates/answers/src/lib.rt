// The text of answers.

#![tactic(auto)]

ghost use Rattle.std.specs.Prelude.{◌≡◌, [], ◌∷◌, ◌++◌, ◌+◌, ◌*◌, ◌≤◌, length};
ghost use Rattle.area.specs.Area.{onto};
ghost use Rattle.decimal.specs.Decimal.{decimal};
ghost use Rattle.text.specs.Fields.{comma};
ghost use Rattle.answers.specs.Answers.{header, data_text, answer_line};

// three numbers of at most 20 digits, three commas, a minus and a line feed; data adds two bytes for each of its own
pub const MOST_WITHOUT_DATA: usize = 65;

pub const HEADER_LENGTH: usize = 19;

// The first line, at the front of an area that holds it; its length.
#[tactic(auto, using(crate::proofs::Laws::header_written), unfolding(crate::specs::Answers::header, rules::specs::Event::ascii, area::specs::Area::onto))]
pub fn write_header(area: &mut [u8]) -> usize
    requires { 19 ≤ length area.old }
    ensures { (result ≡ length header) × (area.new ≡ onto 0 header area.old) }
{
    area[..HEADER_LENGTH].copy_from_slice(b"line,code,key,data\n");
    HEADER_LENGTH
}

// Data or a minus, from a place on; the place after it.
#[tactic(auto, using(crate::proofs::Laws::no_data, crate::proofs::Laws::some_data, hexadecimal::proofs::Laws::hex_length))]
fn put_data(data: &[u8], area: &mut [u8], at: usize) -> usize
    requires { at + (1 + 2 * length «data».now) ≤ length area.old }
    ensures { (result ≡ at + length (data_text «data».now))
        × (area.new ≡ onto at (data_text «data».now) area.old) }
{
    if data.is_empty() {
        area::put(area, at, b'-');
        return at + 1;
    }
    hexadecimal::encode(data, area, at);
    at + 2 * data.len()
}

// A comma, data or a minus, and a line feed, from a place on; the place after them.
#[tactic(auto, using(crate::proofs::Laws::data_short, area::proofs::Laws::onto_then))]
fn put_end(data: &[u8], area: &mut [u8], at: usize) -> usize
    requires { at + (3 + 2 * length «data».now) ≤ length area.old }
    ensures { (result ≡ at + (2 + length (data_text «data».now)))
        × (area.new ≡ onto at ((comma ∷ data_text «data».now) ++ (10 ∷ [])) area.old) }
{
    area::put(area, at, b',');
    let end = put_data(data, area, at + 1);
    area::put(area, end, b'\n');
    end + 1
}

// The answer to the event of a line, at the front of an area that holds it; its length. No data is no bytes.
#[tactic(auto, using(decimal::proofs::Laws::decimal_most))]
pub fn write_answer(number: u64, code: u64, key: u64, data: &[u8], area: &mut [u8]) -> usize
    requires { 65 + 2 * length «data».now ≤ length area.old }
    ensures { (result ≡ length (answer_line number code key «data».now))
        × (area.new ≡ onto 0 (answer_line number code key «data».now) area.old) }
{
    let first = decimal::write(number, area, 0);
    let second = print::put_number(code, area, first);
    let third = print::put_number(key, area, second);
    put_end(data, area, third)
}
