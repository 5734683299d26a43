// The questions that fetch and ready ask first.
ghost use Rattle.std.specs.Prelude.{◌≡◌};
ghost use Rattle.words.specs.Words.{words};
ghost use Rattle.rules.specs.Refusals.{code_of};
ghost use Rattle.rules.specs.Question.{first_no};
ghost use Rattle.layout.specs.Store.{decode};
ghost use Rattle.lent.specs.Stores.{StoreOf};
ghost use Rattle.recovery.specs.Asks.{bucket_asks};

use lent::brick;
use rules::refusal::Refusal;
use rules::settings::Settings;

// Is there such a bucket, and is its primary an up member?
pub fn bucket_asks(store: &[u8], settings: Settings, bucket: u64) -> Result<(), Refusal>
    requires { StoreOf settings store.now }
    ensures { code_of result ≡ first_no (bucket_asks (decode (words store.now)) bucket) }
{
    if settings.buckets() as u64 <= bucket {
        return Err(Refusal::BadInput);
    }
    let agreed = lent::bucket::agreed(store, settings, bucket as usize);
    if brick::up_member(store, settings, agreed.primary) {
        Ok(())
    } else {
        Err(Refusal::NoMember)
    }
}
