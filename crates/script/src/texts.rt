// The line so far.
ghost use Rattle.std.specs.Prelude.{◌≡◌, ◌≤◌, length};
ghost use Rattle.lines.specs.Readable.{ReadAs};
ghost use Rattle.script.specs.Session.{no_text, add_byte, add_bytes, says_text, before_feed};

use crate::{KEPT_BYTES, Text};
use lines::{Line, read};

pub(crate) fn no_text() -> Text
    ensures { result ≡ no_text }
{
    Text {
        length: 0,
        bytes: [0u8; KEPT_BYTES],
    }
}

impl Text {
    #[tactic(auto, unfolding(crate::specs::Session::add_byte))]
    fn push(&mut self, byte: u8)
        ensures { self.new ≡ add_byte self.old byte }
    {
        if self.length < KEPT_BYTES {
            self.bytes[self.length] = byte;
            self.length += 1;
        }
    }
}

pub(crate) fn with_bytes(mut text: Text, bytes: &[u8]) -> Text
    ensures { result ≡ add_bytes text bytes.now }
{
    for byte in bytes {
        text.push(*byte);
    }
    text
}

// How many bytes stand before the first line feed.
pub(crate) fn before_feed(bytes: &[u8]) -> usize
    ensures value { result ≡ before_feed bytes.now }
    ensures upper_bound { result ≤ length bytes.now }
{
    bytes
        .iter()
        .position(|byte| *byte == 10)
        .unwrap_or(bytes.len())
}

pub(crate) fn line_of(text: Text) -> Option<Line>
    ensures { ReadAs result (says_text text) }
{
    read(&text.bytes[..text.length.min(KEPT_BYTES)])
}
