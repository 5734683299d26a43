// collect: the chunks of a place's log that no pair's copy names go.

#![tactic(auto)]

ghost use Rattle.std.specs.Prelude.{◌≡◌, ◌<◌, eqb, length};
ghost use Rattle.lists.specs.Tests.{◌or◌, all_below};
ghost use Rattle.words.specs.Words.{words};
ghost use Rattle.rules.specs.Limits.{buckets, proxies};
ghost use Rattle.rules.specs.Event.{Event};
ghost use Rattle.rules.specs.Derived.{is_empty, up_member, nothing_pending};
ghost use Rattle.rules.specs.Refusals.{code_of};
ghost use Rattle.rules.specs.Question.{first_no};
ghost use Rattle.rules.specs.Upkeep.{collect_asks, collect_effect};
ghost use Rattle.layout.specs.Store.{decode, render};
ghost use Rattle.lent.specs.Performs.{Performs};
ghost use Rattle.lent.specs.Stores.{StoreOf};
ghost use Rattle.collect.specs.Collect.{Collects, idle_asks};

use layout::sizes;
use lent::{Answer, place, proxy};
use rules::constants;
use rules::refusal::Refusal;
use rules::settings::Settings;

pub mod marks;
pub mod pending;

// ---- question 13

// Is a place empty, or does it hold an up member?
fn empty_or_up(store: &[u8], settings: Settings, place: usize) -> bool
    requires { StoreOf settings store.now × (place < settings.places) }
    ensures { result ≡ (is_empty (decode (words store.now)) place
        or up_member (decode (words store.now)) ((decode (words store.now)).ids place)) }
{
    place::id(store, settings, place) == 0 || place::up_member(store, settings, place)
}

fn all_up(store: &[u8], settings: Settings) -> bool
    requires { StoreOf settings store.now }
    ensures { result ≡ all_below settings.places (λ p. is_empty (decode (words store.now)) p
        or up_member (decode (words store.now)) ((decode (words store.now)).ids p)) }
{
    (0..settings.places).all(|place| empty_or_up(store, settings, place))
}

fn all_nothing_pending(store: &[u8], settings: Settings) -> bool
    requires { StoreOf settings store.now }
    ensures { result ≡ all_below (buckets settings) (λ g. nothing_pending ((decode (words store.now)).bucket g)) }
{
    (0..settings.buckets()).all(|bucket| pending::nothing_pending(store, settings, bucket))
}

// Are there no items at any proxy?
fn no_items(store: &[u8], settings: Settings) -> bool
    requires { StoreOf settings store.now }
    ensures { result ≡ all_below proxies (λ p. eqb (length ((decode (words store.now)).items p)) 0) }
{
    (0..constants::PROXIES).all(|number| proxy::item_count(store, settings, number) == 0)
}

// All of them.
fn idle_asks(store: &[u8], settings: Settings) -> Result<(), Refusal>
    requires { StoreOf settings store.now }
    ensures { code_of result ≡ first_no (idle_asks (decode (words store.now))) }
{
    if !all_up(store, settings) {
        return Err(Refusal::WrongState);
    }
    if !all_nothing_pending(store, settings) {
        return Err(Refusal::WrongState);
    }
    if no_items(store, settings) {
        Ok(())
    } else {
        Err(Refusal::WrongState)
    }
}

// Refuses with the first question that is answered no.
fn asks(store: &[u8], settings: Settings, place: u64) -> Result<(), Refusal>
    requires { StoreOf settings store.now }
    ensures { code_of result ≡ first_no (collect_asks (decode (words store.now)) place) }
{
    place::asks(store, settings, place)?;
    idle_asks(store, settings)
}

// ---- the effect

// All buckets are ready with nothing pending, so the four copies of each pair name what the primary's memory names. There is room for where they lie.
fn collect_in(store: &mut [u8], settings: Settings, place: usize, tables: &mut [Option<usize>])
    requires { Collects settings store.old place × (length tables.old ≡ buckets settings) }
    ensures { words store.new
        ≡ render (collect_effect (decode (words store.old)) ((decode (words store.old)).ids place)) (words store.old) }
{
    named::all_named(store, settings, tables);
    let at = sizes::place_at(settings, place) + sizes::log_at(settings);
    marks::mark_tables(store, settings, at, tables);
    marks::sweep_log(store, settings, at);
}

fn collect_log(store: &mut [u8], settings: Settings, place: usize)
    requires { Collects settings store.old place }
    ensures { words store.new
        ≡ render (collect_effect (decode (words store.old)) ((decode (words store.old)).ids place)) (words store.old) }
{
    let count = settings.buckets();
    let mut tables = [None; constants::MAX_BUCKETS];
    collect_in(store, settings, place, &mut tables[0..count]);
}

pub fn collect(store: &mut [u8], settings: Settings, place: u64) -> Answer
    requires { StoreOf settings store.old }
    ensures { Performs (Event.collect place) (words store.old) result (words store.new) }
{
    asks(store, settings, place)?;
    collect_log(store, settings, place as usize);
    Ok(0)
}
