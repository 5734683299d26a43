// The event fetch: the source's copy in memory replaces the primary's, in memory and on disk.
ghost use Rattle.std.specs.Prelude.{◌≡◌, ◌<◌};
ghost use Rattle.words.specs.Words.{words};
ghost use Rattle.rules.specs.Event.{Event};
ghost use Rattle.rules.specs.Refusals.{code_of};
ghost use Rattle.rules.specs.Question.{first_no};
ghost use Rattle.rules.specs.Views.{source, fetch_asks, fetch_effect};
ghost use Rattle.layout.specs.Store.{decode, render};
ghost use Rattle.records.specs.Records.{agreed_of};
ghost use Rattle.lent.specs.Performs.{Performs};
ghost use Rattle.lent.specs.Stores.{StoreOf};
ghost use Rattle.recovery.specs.Fetch.{fetched_record};
ghost use Rattle.recovery.specs.Asks.{UpBucket};

use crate::{asks, copies, member};
use lent::Answer;
use records::agreed::Agreed;
use rules::refusal::Refusal;
use rules::settings::Settings;

// Its questions.
fn asks(store: &[u8], settings: Settings, bucket: u64) -> Result<(), Refusal>
    requires { StoreOf settings store.now }
    ensures { code_of result ≡ first_no (fetch_asks (decode (words store.now)) bucket) }
{
    asks::bucket_asks(store, settings, bucket)?;
    let agreed = lent::bucket::agreed(store, settings, bucket as usize);
    if agreed.ready {
        return Err(Refusal::WrongState);
    }
    if member::find_source(store, settings, bucket as usize).is_some() {
        Ok(())
    } else {
        Err(Refusal::WrongState)
    }
}

// A bucket's record, once fetched.
fn fetched(old: Agreed) -> Agreed
    ensures { agreed_of result ≡ fetched_record (agreed_of old) }
{
    Agreed {
        fetched: true,
        ..old
    }
}

// Its effect.
fn replace(store: &mut [u8], settings: Settings, bucket: usize)
    requires { StoreOf settings store.old × UpBucket settings (decode (words store.old)) bucket × (0 < source (decode (words store.old)) bucket) }
    ensures { words store.new ≡ render (fetch_effect (decode (words store.old)) bucket) (words store.old) }
{
    let agreed = lent::bucket::agreed(store, settings, bucket);
    let source = member::find_source(store, settings, bucket).unwrap();
    let from = member::place(store, settings, source);
    let to = member::place(store, settings, agreed.primary);
    copies::replace(store, settings, bucket, from, to);
    lent::bucket::write(store, settings, bucket, fetched(agreed));
}

pub fn fetch(store: &mut [u8], settings: Settings, bucket: u64) -> Answer
    requires { StoreOf settings store.old }
    ensures { Performs (Event.fetch bucket) (words store.old) result (words store.new) }
{
    asks(store, settings, bucket)?;
    replace(store, settings, bucket as usize);
    Ok(0)
}
