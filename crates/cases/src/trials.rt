// One case: each answer is compared with the rows that name it.
use crate::tallies::Tally;
use script::Session;
use std::io;

const ANSWER_ROOM: usize = 4096;

// A case in progress: the answer to the last line handed in, an array with a count since memory is fixed, and how much of it the table has
// named.
#[derive(Clone, Copy)]
pub(crate) struct Trial {
    right: bool,
    answer: [u8; ANSWER_ROOM],
    count: usize,
    named: usize,
}

impl Trial {
    pub(crate) fn fresh() -> Trial {
        Trial {
            right: true,
            answer: [0; ANSWER_ROOM],
            count: 0,
            named: 0,
        }
    }

    pub(crate) fn is_wrong(&self) -> bool {
        !self.right
    }

    // The first fault of a case is printed, with the whole answer that was given.
    pub(crate) fn fault(&mut self, rt: &impl Print, number: u64) -> io::Result<()> {
        self.named = self.count;
        if !self.right {
            return Ok(());
        }
        self.right = false;
        println!(rt; "WRONG at line {number}, where the answer is")?;
        rt.write_all(&self.answer[..self.count.min(ANSWER_ROOM)])
    }

    // All of the last answer must be named before another line is handed in and before a case ends.
    fn all_named(&mut self, rt: &impl Print, number: u64) -> io::Result<()> {
        if self.named == self.count {
            return Ok(());
        }
        self.fault(rt, number)
    }

    // A line of the script is handed to the session; where a row has none, nothing is, and nothing is answered.
    pub(crate) fn hand_in(
        &mut self,
        rt: &impl Print,
        number: u64,
        session: Session,
        line: Option<&[u8]>,
    ) -> io::Result<Session> {
        self.all_named(rt, number)?;
        self.answer = [0; ANSWER_ROOM];
        self.count = 0;
        self.named = 0;
        let Some(line) = line else {
            return Ok(session);
        };
        let fed = session.feed(line, &mut self.answer);
        self.count = fed.count;
        Ok(fed.session)
    }

    // Whether the answer goes on with that text.
    pub(crate) fn name(&mut self, rt: &impl Print, number: u64, text: &[u8]) -> io::Result<()> {
        let left = &self.answer[self.named.min(ANSWER_ROOM)..];
        if !left.starts_with(text) {
            return self.fault(rt, number);
        }
        self.named = self.named.saturating_add(text.len());
        Ok(())
    }

    // The end of a case; one that handed nothing in shows nothing.
    pub(crate) fn close(
        mut self,
        rt: &impl Print,
        number: u64,
        tally: &mut Tally,
    ) -> io::Result<()> {
        self.all_named(rt, number)?;
        if self.right && 0 < self.count {
            return tally.right(rt);
        }
        if self.right {
            println!(rt; "WRONG, nothing is handed in")?;
        }
        tally.wrong();
        Ok(())
    }
}
