// What the tests call and the library does not export: send, deliver and drop on records.

#![tactic(auto)]

ghost use Rattle.relay_list.specs.Relays.{relay_of, Sends, Delivers, Drops};

use numbers::delivered;
use relay_list::Relay;
use rules::refusal::code;

pub mod numbers;

// stays: C reads this struct, a code with a relay beside it.
#[repr(C)]
#[derive(Clone, Copy)]
pub struct DeliverAnswer {
    pub code: u64,
    pub relay: Relay,
}

#[unsafe(no_mangle)]
pub extern "C" fn list_send(list: &mut [Relay], count: usize, relay: Relay) -> u64
    ensures { Sends count relay list.old result list.new }
{
    code(relay_list::send(list, count, relay))
}

#[unsafe(no_mangle)]
pub extern "C" fn list_deliver(list: &mut [Relay], count: usize, index: usize) -> DeliverAnswer
    ensures { Delivers count index list.old result.code (relay_of result.relay) list.new }
{
    delivered(relay_list::deliver(list, count, index))
}

#[unsafe(no_mangle)]
pub extern "C" fn list_drop(list: &mut [Relay], count: usize, index: usize) -> u64
    ensures { Drops count index list.old result list.new }
{
    code(relay_list::drop(list, count, index))
}
