//! What a response's ending says of its connection.

ghost use Rattle.std.specs.Prelude.{◌≡◌};
ghost use Rattle.script_engine.specs.Meaning.{facts_of_ending};

use persistence::{Facts, Framing, Version};
use script_text::Ending;

/// A response of HTTP/1.1 whose body was counted and read whole.
const PLAIN: Facts = Facts {
    version: Version::V11,
    close: false,
    keep_alive: false,
    request_close: false,
    framing: Framing::Counted,
    both_lengths: false,
    upgraded: false,
    whole: true,
    surplus: false,
};

/// The facts of a response that ended so.
pub fn facts_of_ending(ending: Ending) -> Facts
    ensures { result ≡ facts_of_ending ending }
{
    let mut facts = PLAIN;
    match ending {
        Ending::Keep => {}
        Ending::Close => facts.close = true,
        Ending::Old => facts.version = Version::V10,
        Ending::OldKeep => {
            facts.version = Version::V10;
            facts.keep_alive = true;
        }
        Ending::Eof => facts.framing = Framing::UntilClose,
        Ending::Cut => facts.whole = false,
        Ending::Surplus => facts.surplus = true,
    }
    facts
}
