// A list of events in one call: question 2 once, and then each event on what the ones before left.

#![tactic(auto)]

ghost use Rattle.std.specs.Prelude.{◌≡◌, [], ◌+◌, ◌≤◌, leb, length, set};
ghost use Rattle.rules.specs.Reads.{zeros};
ghost use Rattle.lent.specs.Stores.{StoreOf};
ghost use Rattle.rules.specs.Refusals.{code_of};
ghost use Rattle.lent.specs.Performs.{key_of};
ghost use Rattle.calls.specs.Outcome.{call_with};
ghost use Rattle.batch.specs.Batch.{block_at, batch_with, lent, turn, turns, ran, batch_outcome, Fits, StepsAt};

use lent::Answer;
use rules::refusal::Refusal;
use rules::settings::Settings;

// words of an event, and of its answer
const EVENT_WORDS: usize = 5;

const ANSWER_WORDS: usize = 2;

// Are there so many bytes from a byte on?
fn reaches(length: usize, at: usize, size: usize) -> bool
    ensures { result ≡ leb (at + size) length }
{
    if size <= length {
        return at <= length - size;
    }
    false
}

// The block that begins at a byte; none where so many bytes are not there.
fn block_at<'a>(bytes: &'a [u8], at: usize, size: usize) -> &'a [u8]
    ensures { result.now ≡ block_at size at bytes.now }
{
    if reaches(bytes.len(), at, size) {
        let end = at + size;
        return &bytes[at..end];
    }
    &bytes[0..0]
}

// An event: a put's block lies in the data, a get's in the area. No block of zeros is lent: a get writes its zeros itself.
fn step_at(
    store: &mut [u8],
    settings: Settings,
    kind: u64,
    a: u64,
    b: u64,
    c: u64,
    at: usize,
    data: &[u8],
    area: &mut [u8],
) -> Answer
    requires { StoreOf settings store.old }
    ensures { StepsAt settings.size at
        (call_with kind a b c (block_at settings.size at «data».now) (zeros settings.size) (block_at settings.size at area.old))
        store.old area.old result store.new area.new }
{
    let size = settings.size;
    if kind == step::GET {
        if reaches(area.len(), at, size) {
            let end = at + size;
            return reads::fill_block(store, settings, a, b, &mut area[at..end]);
        }
        return Err(Refusal::BadInput);
    }
    let bytes = block_at(data, at, size);
    step::perform(
        store,
        settings,
        kind,
        a,
        b,
        c,
        bytes,
        &data[0..0],
        &mut area[0..0],
    )
}

// The two words of an answer.
fn set_answer(answers: &mut [u64], to: usize, answer: Answer)
    requires { to + 2 ≤ length answers.old }
    ensures { answers.new ≡ set (set answers.old to (code_of answer)) (to + 1) (key_of answer) }
{
    match answer {
        Ok(key) => {
            answers[to] = 0;
            answers[to + 1] = key;
        }
        Err(refusal) => {
            answers[to] = u64::from(refusal);
            answers[to + 1] = 0;
        }
    }
}

// Event i of the list.
fn run_one(
    store: &mut [u8],
    settings: Settings,
    i: usize,
    events: &[u64],
    data: &[u8],
    area: &mut [u8],
    answers: &mut [u64],
)
    requires { Fits settings (i + 1) events.now answers.old store.old }
    ensures { lent store.new area.new answers.new
        ≡ turn settings.size (batch_with events.now «data».now) i
        (lent store.old area.old answers.old) }
{
    let e = EVENT_WORDS * i;
    let at = events[e + 4] as usize;
    let answer = step_at(
        store,
        settings,
        events[e],
        events[e + 1],
        events[e + 2],
        events[e + 3],
        at,
        data,
        area,
    );
    set_answer(answers, ANSWER_WORDS * i, answer)
}

// The first n events of the list.
fn run_all(
    store: &mut [u8],
    settings: Settings,
    n: usize,
    events: &[u64],
    data: &[u8],
    area: &mut [u8],
    answers: &mut [u64],
)
    requires { Fits settings n events.now answers.old store.old }
    ensures { lent store.new area.new answers.new
        ≡ turns settings.size (batch_with events.now «data».now) n
        (lent store.old area.old answers.old) }
{
    for i in 0..n {
        run_one(store, settings, i, events, data, area, answers);
    }
}

// Performs a list of events, each on what the ones before left, with a code and a key for each. Refused where the store is not sound, and where the events
// are no whole number or the answers not as many; then no lent byte changes.
pub fn run(
    store: &mut [u8],
    events: &[u64],
    data: &[u8],
    area: &mut [u8],
    answers: &mut [u64],
) -> Result<(), Refusal>
    ensures { ran (code_of result) (lent store.new area.new answers.new)
        ≡ batch_outcome (batch_with events.now «data».now) (lent store.old area.old answers.old) }
{
    if !store_check::is_sound(store) {
        return Err(Refusal::Unsound);
    }
    let n = events.len() / EVENT_WORDS;
    if events.len() != EVENT_WORDS * n {
        return Err(Refusal::BadInput);
    }
    if answers.len() != ANSWER_WORDS * n {
        return Err(Refusal::BadInput);
    }
    let settings = lent::store::settings(store);
    run_all(store, settings, n, events, data, area, answers);
    Ok(())
}
