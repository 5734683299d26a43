// The answer to a line, on a lent store.

#![tactic(auto)]

ghost use Rattle.std.specs.Prelude.{◌≡◌, ◌≤◌, length};
ghost use Rattle.rules.specs.Event.{Event, event_from};
ghost use Rattle.rules.specs.Limits.{max_size};
ghost use Rattle.rules.specs.Reads.{zeros};
ghost use Rattle.rules.specs.Step.{step};
ghost use Rattle.layout.specs.Store.{decode_bytes};
ghost use Rattle.lent.specs.Stores.{SoundStore, StoreOf};
ghost use Rattle.traces.specs.Trace.{outcome};
ghost use Rattle.replies.specs.Replies.{longest_answer, Replies};

use rules::settings::Settings;

// An answer has at most so many bytes.
pub const LONGEST: usize = answers::MOST_WITHOUT_DATA + 2 * Settings::MAX_SIZE;

fn zero_block() -> [u8; Settings::MAX_SIZE]
    ensures { result ≡ zeros max_size }
{
    [0u8; Settings::MAX_SIZE]
}

// The answer to a get, printed from the bytes where they lie: a part of the store, or of a block of zeros.
fn answer_get(
    store: &[u8],
    settings: Settings,
    proxy: u64,
    block: u64,
    number: u64,
    area: &mut [u8],
) -> usize
    requires { StoreOf settings store.now × (longest_answer ≤ length area.old) }
    ensures { Replies number (step (decode_bytes store.now) (Event.get proxy block)) area.old result area.new
        store.now store.now }
{
    let blank = zero_block();
    match reads::get(store, &blank[..settings.size], settings, proxy, block) {
        Ok(found) => answers::write_answer(number, 0, found.key, found.bytes, area),
        Err(refusal) => { answers::write_answer(number, u64::from(refusal), 0, &blank[0..0], area) }
    }
}

// An event is carried out, and its answer stands at the front of the area; the answer's length. Only a get looks at areas and shows bytes.
fn answer_event(
    store: &mut [u8],
    settings: Settings,
    event: text::Event,
    data: &[u8],
    number: u64,
    area: &mut [u8],
) -> usize
    requires { StoreOf settings store.old × (longest_answer ≤ length area.old) }
    ensures { Replies number (step (decode_bytes store.old) (event_from event.kind event.a event.b event.c «data».now)) area.old
        result area.new store.old store.new }
{
    if event.kind == step::GET {
        return answer_get(store, settings, event.a, event.b, number, area);
    }
    let answer = step::perform(
        store,
        settings,
        event.kind,
        event.a,
        event.b,
        event.c,
        data,
        &data[0..0],
        &mut area[0..0],
    );
    match answer {
        Ok(key) => answers::write_answer(number, 0, key, &data[0..0], area),
        Err(refusal) => { answers::write_answer(number, u64::from(refusal), 0, &data[0..0], area) }
    }
}

// The same of the event of a line.
pub fn answer_line(store: &mut [u8], line: &[u8], number: u64, area: &mut [u8]) -> usize
    requires { SoundStore store.old × (longest_answer ≤ length area.old) }
    ensures { Replies number (outcome (decode_bytes store.old) line.now) area.old result area.new
        store.old store.new }
{
    let settings = lent::store::settings(store);
    let size = settings.size;
    let mut data = zero_block();
    match parse::parse(line, size, &mut data[..size]) {
        Some(event) => answer_event(store, settings, event, &data[..size], number, area),
        None => answers::write_answer(number, 3, 0, &line[0..0], area),
    }
}
