// The bag of relays as a lent slice of records, of which the first `count` are in use, oldest first. What works on records is thin, and leaves the rest to
// `flat` and `stored`.

#![tactic(auto)]

ghost use Rattle.std.specs.Prelude.{◌≡◌, ◌*◌, ◌≤◌, length, get_or};
ghost use Rattle.words.specs.Words.{words};
ghost use Rattle.rules.specs.Limits.{max_relays};
ghost use Rattle.rules.specs.Refusals.{code_of};
ghost use Rattle.tables.specs.Tables.{IsTable};
ghost use Rattle.layout.specs.Layout.{bag_words};
ghost use Rattle.bag.specs.Relays.{relay_words};
ghost use Rattle.relay_list.specs.Relays.{Within, delivered_relay, Sends, Delivers, Drops, Loses, Loads, Stores};
ghost use Rattle.relay_list.specs.Shown.{Shows};

use rules::constants::MAX_RELAYS;
use rules::refusal::Refusal;

pub mod flat;
pub mod stored;

pub use bag::Relay;

// How many relays of a store's bag were handed out, or the number of the question that was answered no.
// stays: C reads this struct, a code with a count beside it.
#[repr(C)]
#[derive(Clone, Copy)]
pub struct BagAnswer {
    pub code: u64,
    pub count: usize,
}

// A relay more, as the youngest, where the slice and the bag have room for it.
// stays: C lends the whole slice, so the count is beside it here and below.
pub fn send(list: &mut [Relay], count: usize, relay: Relay) -> Result<(), Refusal>
    ensures { Sends count relay list.old (code_of result) list.new }
{
    if (count < list.len()) & (count < MAX_RELAYS) {
        list[count] = relay;
        Ok(())
    } else {
        Err(Refusal::NoRoom)
    }
}

// The relay at an index leaves the bag, and is given back.
pub fn deliver(list: &mut [Relay], count: usize, index: usize) -> Result<Relay, Refusal>
    ensures { Delivers count index list.old (code_of result) (delivered_relay result) list.new }
{
    if (index < count) & (count <= list.len()) {
        let relay = list[index];
        close_gap(list, count, index);
        Ok(relay)
    } else {
        Err(Refusal::BadInput)
    }
}

// The relay at an index is lost.
pub fn drop(list: &mut [Relay], count: usize, index: usize) -> Result<(), Refusal>
    ensures { Drops count index list.old (code_of result) list.new }
{
    if (index < count) & (count <= list.len()) {
        close_gap(list, count, index);
        Ok(())
    } else {
        Err(Refusal::BadInput)
    }
}

// The relay at an index goes: later ones move down by one.
fn close_gap(list: &mut [Relay], count: usize, index: usize)
    requires { Within index count list.old }
    ensures { Loses count index list.old list.new }
{
    for i in index..count - 1 {
        list[i] = list[i + 1];
    }
}

// The relays of the bag's flat words, as records. Their number is given back.
pub fn load(part: &[u8], list: &mut [Relay]) -> usize
    requires { IsTable relay_words max_relays (words part.now) (length part.now) × (get_or (words part.now) 0 0 ≤ length list.old) }
    ensures { Loads (words part.now) list.old result list.new }
{
    let count = flat::count(part);
    for i in 0..count {
        list[i] = bag::relay_at(part, i);
    }
    count
}

// The records, as the bag's flat words.
pub fn store(list: &[Relay], count: usize, part: &mut [u8])
    requires { (count ≤ length list.now) × (count ≤ max_relays) × (length part.old ≡ 8 * bag_words) }
    ensures { Stores list.now count (words part.old) (words part.new) }
{
    flat::clear(part);
    for relay in &list[..count] {
        bag::append(part, *relay);
    }
}

// The bag of a lent store, as records.
pub fn show(store: &[u8], list: &mut [Relay]) -> BagAnswer
    ensures { Shows store.now list.old result list.new }
{
    match stored::asks(store, list.len()) {
        Ok(()) => {
            let part = stored::bag_bytes(store);
            let count = load(part, list);
            BagAnswer { code: 0, count }
        }
        Err(refusal) => BagAnswer {
            code: u64::from(refusal),
            count: 0,
        },
    }
}
