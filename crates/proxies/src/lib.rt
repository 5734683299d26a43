// The proxies' own steps: learn, reset and abandon.

#![tactic(auto)]

ghost use Rattle.std.specs.Prelude.{◌≡◌, ◌<◌};
ghost use Rattle.words.specs.Words.{words};
ghost use Rattle.rules.specs.Limits.{proxies};
ghost use Rattle.rules.specs.Event.{Event};
ghost use Rattle.rules.specs.Maps.{abandon_asks, learn_effect, reset_effect};
ghost use Rattle.rules.specs.Refusals.{code_of};
ghost use Rattle.rules.specs.Question.{first_no};
ghost use Rattle.layout.specs.Store.{decode, render};
ghost use Rattle.lent.specs.Performs.{Performs};
ghost use Rattle.lent.specs.Stores.{StoreOf};

use layout::sizes;
use lent::{Answer, proxy, store};
use rules::constants;
use rules::numbers::{BlockNumber, ViewNumber};
use rules::refusal::Refusal;
use rules::settings::Settings;

// ---- learn

// The proxy takes the view number.
fn take_view(store: &mut [u8], settings: Settings, proxy: usize)
    requires { StoreOf settings store.old × (proxy < proxies) }
    ensures { words store.new ≡ render (learn_effect (decode (words store.old)) proxy) (words store.old) }
{
    let view = store::view(store, settings);
    let at = 8 * sizes::proxy_at(settings, proxy);
    records::proxy::set_known(
        &mut store[at..at + 8 * sizes::PROXY_WORDS],
        ViewNumber(view),
    );
}

pub fn learn(store: &mut [u8], settings: Settings, proxy: u64) -> Answer
    requires { StoreOf settings store.old }
    ensures { Performs (Event.learn proxy) (words store.old) result (words store.new) }
{
    if constants::PROXIES as u64 <= proxy {
        return Err(Refusal::BadInput);
    }
    take_view(store, settings, proxy as usize);
    Ok(0)
}

// ---- reset

// The view that a proxy knows becomes 0, and its items go.
fn clear_proxy(store: &mut [u8], settings: Settings, proxy: usize)
    requires { StoreOf settings store.old × (proxy < proxies) }
    ensures { words store.new ≡ render (reset_effect (decode (words store.old)) proxy) (words store.old) }
{
    let at = 8 * sizes::proxy_at(settings, proxy);
    records::proxy::clear(&mut store[at..at + 8 * sizes::PROXY_WORDS]);
}

pub fn reset(store: &mut [u8], settings: Settings, proxy: u64) -> Answer
    requires { StoreOf settings store.old }
    ensures { Performs (Event.reset proxy) (words store.old) result (words store.new) }
{
    if constants::PROXIES as u64 <= proxy {
        return Err(Refusal::BadInput);
    }
    clear_proxy(store, settings, proxy as usize);
    Ok(0)
}

// ---- abandon

// Refuses with the first question that is answered no.
fn asks(store: &[u8], settings: Settings, proxy: u64, block: u64) -> Result<(), Refusal>
    requires { StoreOf settings store.now }
    ensures { code_of result ≡ first_no (abandon_asks (decode (words store.now)) proxy block) }
{
    proxy::block_asks(proxy, block)?;
    if proxy::has_item(store, settings, proxy as usize, BlockNumber(block)) {
        Ok(())
    } else {
        Err(Refusal::WrongItem)
    }
}

pub fn abandon(store: &mut [u8], settings: Settings, proxy: u64, block: u64) -> Answer
    requires { StoreOf settings store.old }
    ensures { Performs (Event.abandon proxy block) (words store.old) result (words store.new) }
{
    asks(store, settings, proxy, block)?;
    proxy::remove_item(store, settings, proxy as usize, BlockNumber(block));
    Ok(0)
}
