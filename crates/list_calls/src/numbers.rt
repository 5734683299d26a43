// What a delivery answers for C: the number of the answer, and the relay, zeros where there is none.
ghost use Rattle.std.specs.Prelude.{◌≡◌};
ghost use Rattle.rules.specs.Refusals.{code_of};
ghost use Rattle.relay_list.specs.Relays.{relay_of, delivered_relay};

use crate::DeliverAnswer;
use relay_list::Relay;
use rules::numbers::{BlockNumber, ChunkKey, ViewNumber};
use rules::refusal::Refusal;

pub fn delivered(answer: Result<Relay, Refusal>) -> DeliverAnswer
    ensures { (result.code ≡ code_of answer) × (relay_of result.relay ≡ delivered_relay answer) }
{
    match answer {
        Ok(relay) => DeliverAnswer { code: 0, relay },
        Err(refusal) => DeliverAnswer {
            code: u64::from(refusal),
            relay: Relay {
                view: ViewNumber(0),
                bucket: 0,
                order: 0,
                block: BlockNumber(0),
                key: ChunkKey(0),
            },
        },
    }
}
