// The bag in a lent slice, in 64-bit words: a count, then at most 64 relays (view, bucket, order number, block, key), oldest first.

#![tactic(auto)]

ghost use Rattle.std.specs.Prelude.{◌≡◌, [], ◌∷◌, ◌++◌, ◌<◌, length, get_or};
ghost use Rattle.words.specs.Words.{words};
ghost use Rattle.rules.specs.Limits.{max_relays};
ghost use Rattle.rules.specs.Maps.{remove_at};
ghost use Rattle.tables.specs.Tables.{IsTable};
ghost use Rattle.codec.specs.Codec.{change};
ghost use Rattle.layout.specs.Layout.{bag_codec};
ghost use Rattle.bag.specs.Relays.{relay_of, relay_words, relay_in_words};

use layout::sizes::RELAY_WORDS;
use rules::constants::MAX_RELAYS;
use rules::numbers::{BlockNumber, ChunkKey, ViewNumber};

// what the words of a row are
const VIEW: usize = 0;

const BUCKET: usize = 1;

const ORDER: usize = 2;

const BLOCK: usize = 3;

const KEY: usize = 4;

#[repr(C)]
#[derive(Clone, Copy)]
pub struct Relay {
    pub view: ViewNumber,
    pub bucket: u64,
    pub order: u64,
    pub block: BlockNumber,
    pub key: ChunkKey,
}

// The relay of a row.
pub fn relay_at(t: &[u8], i: usize) -> Relay
    requires table { IsTable relay_words max_relays (words t.now) (length t.now) }
    requires i_bound { i < get_or (words t.now) 0 0 }
    ensures { relay_of result ≡ relay_in_words (words t.now) i }
{
    Relay {
        view: ViewNumber(tables::cell(t, RELAY_WORDS, MAX_RELAYS, i, VIEW)),
        bucket: tables::cell(t, RELAY_WORDS, MAX_RELAYS, i, BUCKET),
        order: tables::cell(t, RELAY_WORDS, MAX_RELAYS, i, ORDER),
        block: BlockNumber(tables::cell(t, RELAY_WORDS, MAX_RELAYS, i, BLOCK)),
        key: ChunkKey(tables::cell(t, RELAY_WORDS, MAX_RELAYS, i, KEY)),
    }
}

// A relay more, as the youngest.
pub fn append(t: &mut [u8], relay: Relay)
    requires table { IsTable relay_words max_relays (words t.old) (length t.old) }
    requires t_bound { get_or (words t.old) 0 0 < max_relays }
    ensures { words t.new ≡ change bag_codec (λ l. l ++ relay_of relay ∷ []) (words t.old) }
{
    let n = words::read(t, 0) as usize;
    let row = [
        relay.view.0,
        relay.bucket,
        relay.order,
        relay.block.0,
        relay.key.0,
    ];
    tables::insert_row(t, RELAY_WORDS, MAX_RELAYS, n, &row);
}

// The relay at an index leaves the bag.
pub fn remove(t: &mut [u8], i: usize)
    requires table { IsTable relay_words max_relays (words t.old) (length t.old) }
    requires i_bound { i < get_or (words t.old) 0 0 }
    ensures { words t.new ≡ change bag_codec (λ l. remove_at l i) (words t.old) }
{
    tables::remove_row(t, RELAY_WORDS, MAX_RELAYS, i)
}
