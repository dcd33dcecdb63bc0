//! A piece of a text, looked at as a whole.

ghost use Rattle.std.specs.Prelude.{◌≡◌, ◌++◌, ◌∷◌, [], true, IfSome, None};
ghost use Rattle.hp_judge.specs.Bytes.{IsFeed, has_no_feed};
ghost use Rattle.hp_judge.specs.Stages.{text_of};

use http_server::Log;
use memchr::memchr;

/// How many bytes stand before the first line feed.
pub(crate) fn line_feed(text: &[u8]) -> Option<usize>
    ensures some { IfSome result (IsFeed text.now) }
    ensures none { result ≡ None → has_no_feed text.now ≡ true }
{
    memchr(b'\n', text)
}

/// Notes that these bytes were taken, for proofs alone: nothing of it is left in the program.
pub(crate) fn note(taken: &mut Log<u8, ()>, bytes: &[u8])
    ensures { text_of taken.new.items ≡ text_of taken.old.items ++ bytes.now }
{
    for byte in bytes {
        *taken = taken.and(byte, &());
    }
}
