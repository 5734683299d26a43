// The calls for the network layer in C; include/disk.h describes them. A slice is passed as a pointer and a length.

#![tactic(auto)]

ghost use Rattle.std.specs.Prelude.{◌≡◌, length};
ghost use Rattle.text.specs.Lines.{read_settings};
ghost use Rattle.area.specs.Area.{onto};
ghost use Rattle.parse.specs.Answers.{parsed, answer_to, bytes_read, settings_answer, event_answer, four_answer};
ghost use Rattle.rules.specs.Event.{fields_brought};
ghost use Rattle.print.specs.Answers.{printed, line_after, line_answer};
ghost use Rattle.store.specs.Calls.{settings, length_answer, Formatted, check_answer};
ghost use Rattle.calls.specs.Outcome.{call_with, outcome};
ghost use Rattle.alike.specs.Alike.{alike_answer, alike_number};
ghost use Rattle.read_many.specs.Read.{read, read_outcome};
ghost use Rattle.batch.specs.Batch.{batch_with, lent, ran, batch_outcome};
ghost use Rattle.relay_list.specs.Shown.{Shows};
ghost use Rattle.rules.specs.Refusals.{code_of};
ghost use Rattle.lent.specs.Performs.{key_of};
ghost use Rattle.disk.specs.Answers.{step_outcome};

use lent::Answer;
use parse::for_c::{EventAnswer, SettingsAnswer};
use print::for_c::LineAnswer;
use relay_list::{BagAnswer, Relay};
use rules::refusal;

#[repr(C)]
#[derive(Clone, Copy)]
pub struct StepAnswer {
    pub code: u64,
    pub key: u64,
}

impl From<Answer> for StepAnswer {
    ghost from_gives = { λ answer r. (r.code ≡ code_of answer) × (r.key ≡ key_of answer) };

    fn from(answer: Answer) -> StepAnswer {
        match answer {
            Ok(key) => StepAnswer { code: 0, key },
            Err(refusal) => StepAnswer {
                code: u64::from(refusal),
                key: 0,
            },
        }
    }
}

// The bytes to lend for a store of these settings; 0 where they are out of limits.
#[unsafe(no_mangle)]
pub extern "C" fn disk_length(places: u64, size: u64, entries: u64, chunks: u64) -> u64
    ensures { result ≡ length_answer (settings places size entries chunks) }
{
    store::length(places, size, entries, chunks).unwrap_or(0)
}

// Makes the lent bytes a store.
#[unsafe(no_mangle)]
pub extern "C" fn disk_format(
    store: &mut [u8],
    places: u64,
    size: u64,
    entries: u64,
    chunks: u64,
) -> u64
    ensures { Formatted (settings places size entries chunks) store.old result store.new }
{
    let answer = store::format_store(store, places, size, entries, chunks);
    refusal::code(answer)
}

// Is it a sound store?
#[unsafe(no_mangle)]
pub extern "C" fn disk_check(store: &[u8]) -> u64
    ensures { result ≡ check_answer store.now }
{
    refusal::code(store::check(store))
}

// An event of any kind on a lent store.
#[unsafe(no_mangle)]
pub extern "C" fn disk_step(
    store: &mut [u8],
    kind: u64,
    a: u64,
    b: u64,
    c: u64,
    data: &[u8],
    blank: &[u8],
    area: &mut [u8],
) -> StepAnswer
    ensures { step_outcome result area.new store.new
        ≡ outcome store.old (call_with kind a b c «data».now blank.now area.old) }
{
    StepAnswer::from(step::step(store, kind, a, b, c, data, blank, area))
}

// Many blocks of one proxy.
#[unsafe(no_mangle)]
pub extern "C" fn disk_read(store: &[u8], proxy: u64, blocks: &[u64], answers: &mut [u8]) -> u64
    ensures { read result answers.new ≡ read_outcome store.now proxy blocks.now answers.old }
{
    refusal::code(read_many::read(store, proxy, blocks, answers))
}

// A list of events on a lent store.
#[unsafe(no_mangle)]
pub extern "C" fn disk_run(
    store: &mut [u8],
    events: &[u64],
    data: &[u8],
    area: &mut [u8],
    answers: &mut [u64],
) -> u64
    ensures { ran result (lent store.new area.new answers.new)
        ≡ batch_outcome (batch_with events.now «data».now) (lent store.old area.old answers.old) }
{
    refusal::code(batch::run(store, events, data, area, answers))
}

// The relays of the bag, as records.
#[unsafe(no_mangle)]
pub extern "C" fn disk_bag(store: &[u8], relays: &mut [Relay]) -> BagAnswer
    ensures { Shows store.now relays.old result relays.new }
{
    relay_list::show(store, relays)
}

// Are two lent stores alike?
#[unsafe(no_mangle)]
pub extern "C" fn disk_alike(store: &[u8], other: &[u8]) -> u64
    ensures { result ≡ alike_number (alike_answer store.now other.now) }
{
    alike::for_c::alike(store, other)
}

// The event of a line of text.
#[unsafe(no_mangle)]
pub extern "C" fn disk_parse(line: &[u8], size: usize, data: &mut [u8]) -> EventAnswer
    ensures { (result ≡ event_answer (answer_to (parsed size (length «data».old) line.now)))
        × («data».new ≡ onto 0 (bytes_read (parsed size (length «data».old) line.now)) «data».old) }
{
    parse::for_c::parse(line, size, data)
}

// The line of text of an event.
#[unsafe(no_mangle)]
pub extern "C" fn disk_print(
    kind: u64,
    a: u64,
    b: u64,
    c: u64,
    data: &[u8],
    size: usize,
    line: &mut [u8],
) -> LineAnswer
    ensures { (result ≡ line_answer (printed size (fields_brought kind a b c «data».now) (length line.old)))
        × (line.new ≡ line_after size (fields_brought kind a b c «data».now) line.old) }
{
    print::for_c::print(kind, a, b, c, data, size, line)
}

// The settings of the settings line.
#[unsafe(no_mangle)]
pub extern "C" fn disk_parse_settings(line: &[u8]) -> SettingsAnswer
    ensures { result ≡ four_answer (settings_answer (read_settings line.now)) }
{
    parse::for_c::parse_settings(line)
}
