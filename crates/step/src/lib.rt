// The step on a lent store: the event is told by its kind, a number 1 to 22, and kinds that share a shape share a case.

#![tactic(auto)]

ghost use Rattle.std.specs.Prelude.{◌≡◌, [], ◌≤◌};
ghost use Rattle.words.specs.Words.{words};
ghost use Rattle.rules.specs.Event.{event_from};
ghost use Rattle.lent.specs.Performs.{Performs};
ghost use Rattle.lent.specs.Stores.{StoreOf};
ghost use Rattle.calls.specs.Outcome.{call_with, outcome, outcome_of};

use lent::Answer;
use rules::refusal::Refusal;
use rules::settings::Settings;

pub mod get;

// get's kind: no other looks at the zero block and the area, or answers bytes
pub const GET: u64 = 10;

// put, copy, savelog
fn write(
    store: &mut [u8],
    settings: Settings,
    kind: u64,
    a: u64,
    b: u64,
    c: u64,
    data: &[u8],
) -> Answer
    requires { StoreOf settings store.old × (1 ≤ kind) × (kind ≤ 3) }
    ensures { Performs (event_from kind a b c «data».now) (words store.old) result (words store.new) }
{
    match kind {
        1 => writes::put::put(store, settings, a, b, c, data),
        2 => chunk_copy::copy(store, settings, a),
        _ => writes::savelog::savelog(store, settings, a),
    }
}

// map, send, deliver, drop, savemap
fn map(store: &mut [u8], settings: Settings, kind: u64, a: u64, b: u64) -> Answer
    requires { StoreOf settings store.old × (4 ≤ kind) × (kind ≤ 8) }
    ensures { Performs (event_from kind a b 0 []) (words store.old) result (words store.new) }
{
    match kind {
        4 => maps::map::map(store, settings, a, b),
        5 => sends::send(store, settings, a),
        6 => relays::deliver::deliver(store, settings, a),
        7 => relays::drop::drop(store, settings, a),
        _ => maps::savemap::savemap(store, settings, a),
    }
}

// learn, reset
fn follow(store: &mut [u8], settings: Settings, kind: u64, proxy: u64) -> Answer
    requires { StoreOf settings store.old × (12 ≤ kind) × (kind ≤ 13) }
    ensures { Performs (event_from kind proxy 0 0 []) (words store.old) result (words store.new) }
{
    match kind {
        12 => proxies::learn(store, settings, proxy),
        _ => proxies::reset(store, settings, proxy),
    }
}

// crash, lose, rise, join
fn change_brick(store: &mut [u8], settings: Settings, kind: u64, place: u64) -> Answer
    requires { StoreOf settings store.old × (14 ≤ kind) × (kind ≤ 17) }
    ensures { Performs (event_from kind place 0 0 []) (words store.old) result (words store.new) }
{
    match kind {
        14 => membership::crash::crash(store, settings, place),
        15 => membership::lose::lose(store, settings, place),
        16 => membership::rise::rise(store, settings, place),
        _ => membership::join::join(store, settings, place),
    }
}

// view, fetch, ready
fn change_view(store: &mut [u8], settings: Settings, kind: u64, bucket: u64) -> Answer
    requires { StoreOf settings store.old × (18 ≤ kind) × (kind ≤ 20) }
    ensures { Performs (event_from kind bucket 0 0 []) (words store.old) result (words store.new) }
{
    match kind {
        18 => views::view::view(store, settings),
        19 => recovery::fetch::fetch(store, settings, bucket),
        _ => recovery::ready::ready(store, settings, bucket),
    }
}

// mend, collect
fn keep_up(store: &mut [u8], settings: Settings, kind: u64, place: u64) -> Answer
    requires { StoreOf settings store.old × (21 ≤ kind) × (kind ≤ 22) }
    ensures { Performs (event_from kind place 0 0 []) (words store.old) result (words store.new) }
{
    match kind {
        21 => mend::mend(store, settings, place),
        _ => collect::collect(store, settings, place),
    }
}

// Any kind, on a sound store; a number of no kind answers 3.
// Compiled in place: an answer is handed out of a call in memory, which would nearly double the time of a list of small events.
#[inline(always)]
pub fn perform(
    store: &mut [u8],
    settings: Settings,
    kind: u64,
    a: u64,
    b: u64,
    c: u64,
    data: &[u8],
    blank: &[u8],
    area: &mut [u8],
) -> Answer
    requires { StoreOf settings store.old }
    ensures { outcome_of result area.new store.new
        ≡ outcome store.old (call_with kind a b c «data».now blank.now area.old) }
{
    match kind {
        1..=3 => write(store, settings, kind, a, b, c, data),
        4..=8 => map(store, settings, kind, a, b),
        9 => maps::done::done(store, settings, a, b),
        GET => reads::get_into(store, blank, area, settings, a, b),
        11 => proxies::abandon(store, settings, a, b),
        12..=13 => follow(store, settings, kind, a),
        14..=17 => change_brick(store, settings, kind, a),
        18..=20 => change_view(store, settings, kind, a),
        21..=22 => keep_up(store, settings, kind, a),
        _ => Err(Refusal::BadInput),
    }
}

// The step: an event of any kind on any lent bytes. It brings its data, a block of zeros and an area for what a get answers.
pub fn step(
    store: &mut [u8],
    kind: u64,
    a: u64,
    b: u64,
    c: u64,
    data: &[u8],
    blank: &[u8],
    area: &mut [u8],
) -> Answer
    ensures { outcome_of result area.new store.new
        ≡ outcome store.old (call_with kind a b c «data».now blank.now area.old) }
{
    if store_check::is_sound(store) {
        let settings = lent::store::settings(store);
        return perform(store, settings, kind, a, b, c, data, blank, area);
    }
    Err(Refusal::Unsound)
}
