// The event ready: the primary's copy replaces the backup's, other up bricks drop theirs, and the entries that wait move in.
ghost use Rattle.std.specs.Prelude.{◌≡◌, true};
ghost use Rattle.words.specs.Words.{words};
ghost use Rattle.rules.specs.Event.{Event};
ghost use Rattle.rules.specs.Derived.{up_member};
ghost use Rattle.rules.specs.Refusals.{code_of};
ghost use Rattle.rules.specs.Question.{first_no};
ghost use Rattle.rules.specs.Views.{ready_asks, ready_effect};
ghost use Rattle.layout.specs.Store.{decode, render};
ghost use Rattle.records.specs.Records.{agreed_of};
ghost use Rattle.lent.specs.Performs.{Performs};
ghost use Rattle.lent.specs.Stores.{StoreOf};
ghost use Rattle.recovery.specs.Asks.{fetched_asks, UpBucket};
ghost use Rattle.recovery.specs.Ready.{ready_record};

use crate::{asks, copies, member, others, waiting};
use layout::sizes;
use lent::{Answer, brick};
use records::agreed::Agreed;
use rules::refusal::Refusal;
use rules::settings::Settings;

// Is the bucket fetched in this view, and not yet ready?
fn fetched_asks(agreed: Agreed) -> Result<(), Refusal>
    ensures { code_of result ≡ first_no (fetched_asks (agreed_of agreed)) }
{
    if agreed.fetched && !agreed.ready {
        Ok(())
    } else {
        Err(Refusal::WrongState)
    }
}

// Its questions.
fn asks(store: &[u8], settings: Settings, bucket: u64) -> Result<(), Refusal>
    requires { StoreOf settings store.now }
    ensures { code_of result ≡ first_no (ready_asks (decode (words store.now)) bucket) }
{
    asks::bucket_asks(store, settings, bucket)?;
    let agreed = lent::bucket::agreed(store, settings, bucket as usize);
    if brick::up_member(store, settings, agreed.backup) {
        fetched_asks(agreed)
    } else {
        Err(Refusal::NoMember)
    }
}

// A bucket's record, once ready: its pair is the last ready pair.
fn readied(old: Agreed) -> Agreed
    ensures { agreed_of result ≡ ready_record (agreed_of old) }
{
    Agreed {
        last_primary: old.primary,
        last_backup: old.backup,
        ready: true,
        ..old
    }
}

// Its effect.
fn make_ready(store: &mut [u8], settings: Settings, bucket: usize)
    requires { StoreOf settings store.old × UpBucket settings (decode (words store.old)) bucket
        × (up_member (decode (words store.old)) ((decode (words store.old)).bucket bucket).backup ≡ true) }
    ensures { words store.new ≡ render (ready_effect (decode (words store.old)) bucket) (words store.old) }
{
    let agreed = lent::bucket::agreed(store, settings, bucket);
    let primary = member::place(store, settings, agreed.primary);
    let backup = member::place(store, settings, agreed.backup);
    let places = 8 * sizes::places_at(settings);
    let end = store.len();
    others::drop_all(
        &mut store[places..end],
        settings,
        bucket,
        agreed.primary,
        agreed.backup,
    );
    copies::replace(store, settings, bucket, primary, backup);
    waiting::drain(store, settings, bucket, primary);
    lent::bucket::write(store, settings, bucket, readied(agreed));
}

pub fn ready(store: &mut [u8], settings: Settings, bucket: u64) -> Answer
    requires { StoreOf settings store.old }
    ensures { Performs (Event.ready bucket) (words store.old) result (words store.new) }
{
    asks(store, settings, bucket)?;
    make_ready(store, settings, bucket as usize);
    Ok(0)
}
