// How many relays the bag's flat words hold, and none.
ghost use Rattle.std.specs.Prelude.{◌≡◌, [], ◌*◌, length, get_or};
ghost use Rattle.words.specs.Words.{words};
ghost use Rattle.rules.specs.Limits.{max_relays};
ghost use Rattle.tables.specs.Tables.{IsTable};
ghost use Rattle.layout.specs.Layout.{bag_codec, bag_words};
ghost use Rattle.bag.specs.Relays.{relay_words};

// So many relays are in the bag.
pub fn count(part: &[u8]) -> usize
    requires { IsTable relay_words max_relays (words part.now) (length part.now) }
    ensures { result ≡ get_or (words part.now) 0 0 }
{
    words::read(part, 0) as usize
}

// No relay is left.
pub fn clear(part: &mut [u8])
    requires { length part.old ≡ 8 * bag_words }
    ensures { words part.new ≡ bag_codec.enc [] (words part.old) }
{
    words::write(part, 0, 0);
}
