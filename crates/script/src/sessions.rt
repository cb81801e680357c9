// A session is fed with bytes, and answers each line.
ghost use Rattle.std.specs.Prelude.{◌≡◌};
ghost use Rattle.printing.specs.Replies.{put_text};
ghost use Rattle.script.specs.Answering.{reply_to};
ghost use Rattle.script.specs.Session.{begun, says_text, untaken, answered, fed_with, room_with, ended, room_ended};

use crate::desks::{clock_of, due_of, handle};
use crate::texts::{before_feed, line_of, no_text, with_bytes};
use crate::{Fed, Session, Text};
use actions::ROOM;
use printing::{ANSWER_ROOM, put_reply};
use station::Station;

// The answer to a whole line, and a session that waits for the next one.
fn answer(used: usize, desk: Option<Station>, text: Text, out: &mut [u8]) -> Fed
    ensures value { result ≡ answered used desk text out.old }
    ensures out_after { out.new ≡ put_text out.old (reply_to desk (says_text text)) }
{
    let mut blocks = [0u8; ROOM];
    let line = line_of(text);
    let handled = handle(desk, line, &mut blocks);
    let desk = handled.desk;
    let clock = clock_of(desk);
    let due = due_of(desk);
    let count = put_reply(handled.answer, clock, handled.count, due, &blocks, out);
    let text = no_text();
    Fed {
        used,
        count,
        session: Session { desk, text },
    }
}

fn untaken(session: Session) -> Fed
    ensures { result ≡ untaken session }
{
    Fed {
        used: 0,
        count: 0,
        session,
    }
}

impl Session {
    // "No station yet".
    #[tactic(auto, unfolding(crate::specs::Session::begun))]
    pub fn begin() -> Session
        ensures { result ≡ begun }
    {
        Session {
            desk: None,
            text: no_text(),
        }
    }

    // Takes bytes up to the first line feed and with it; a line that ends is answered into a room of 4,096 bytes. Nothing is
    // taken where the room is shorter.
    #[tactic(auto, unfolding(crate::specs::Session::fed_with, crate::specs::Session::room_with))]
    pub fn feed(self, bytes: &[u8], out: &mut [u8]) -> Fed
        ensures value { result ≡ fed_with self bytes.now out.old }
        ensures out_after { out.new ≡ room_with self bytes.now out.old }
    {
        if out.len() < ANSWER_ROOM {
            return untaken(self);
        }
        let desk = self.desk;
        let before = before_feed(bytes);
        let text = with_bytes(self.text, &bytes[..before]);
        if before < bytes.len() {
            return answer(before + 1, desk, text, out);
        }
        Fed {
            used: before,
            count: 0,
            session: Session { desk, text },
        }
    }

    // At the end of the input a last line without a line feed is answered.
    #[tactic(auto, unfolding(crate::specs::Session::ended, crate::specs::Session::room_ended))]
    pub fn finish(self, out: &mut [u8]) -> Fed
        ensures value { result ≡ ended self out.old }
        ensures out_after { out.new ≡ room_ended self out.old }
    {
        if out.len() < ANSWER_ROOM {
            return untaken(self);
        }
        if self.text.length == 0 {
            return untaken(self);
        }
        answer(0, self.desk, self.text, out)
    }
}
