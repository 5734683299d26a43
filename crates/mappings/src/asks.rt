// Questions that several events ask of a block, in groups: each function refuses with the first one that is answered no.
ghost use Rattle.std.specs.Prelude.{◌≡◌};
ghost use Rattle.words.specs.Words.{words};
ghost use Rattle.rules.specs.Refusals.{code_of};
ghost use Rattle.rules.specs.Question.{first_no};
ghost use Rattle.layout.specs.Store.{decode};
ghost use Rattle.lent.specs.Stores.{StoreOf};
ghost use Rattle.mappings.specs.Asks.{access_asks, settled_asks, served_asks};

use crate::block;
use lent::proxy;
use rules::numbers::BlockNumber;
use rules::refusal::Refusal;
use rules::settings::Settings;

// map, done, get: is it the proxy's block, does the proxy know the view, and is the primary an up member?
pub fn access_asks(store: &[u8], settings: Settings, proxy: u64, block: u64) -> Result<(), Refusal>
    requires { StoreOf settings store.now }
    ensures { code_of result ≡ first_no (access_asks (decode (words store.now)) proxy block) }
{
    proxy::block_asks(proxy, block)?;
    if !proxy::knows_view(store, settings, proxy as usize) {
        return Err(Refusal::ViewUnknown);
    }
    if block::primary_up(store, settings, BlockNumber(block)) {
        Ok(())
    } else {
        Err(Refusal::NoMember)
    }
}

// The same: is the block neither pending nor in the primary's append buffer? The copies are looked through at the guess first (`block::index_of`).
pub fn settled_asks(
    store: &[u8],
    settings: Settings,
    block: BlockNumber,
    guess: usize,
) -> Result<(), Refusal>
    requires { StoreOf settings store.now }
    ensures { code_of result ≡ first_no (settled_asks (decode (words store.now)) block.0) }
{
    if block::pending(store, settings, block, guess) {
        return Err(Refusal::Pending);
    }
    if block::waits(store, settings, block) {
        Err(Refusal::Pending)
    } else {
        Ok(())
    }
}

// done, get: access, the bucket ready, and the block settled.
pub fn served_asks(
    store: &[u8],
    settings: Settings,
    proxy: u64,
    block: u64,
    guess: usize,
) -> Result<(), Refusal>
    requires { StoreOf settings store.now }
    ensures { code_of result ≡ first_no (served_asks (decode (words store.now)) proxy block) }
{
    access_asks(store, settings, proxy, block)?;
    if !block::is_ready(store, settings, BlockNumber(block)) {
        return Err(Refusal::NotReady);
    }
    settled_asks(store, settings, BlockNumber(block), guess)
}
