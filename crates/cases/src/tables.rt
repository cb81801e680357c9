// A table, row by row: `#` begins a case, `>` hands a line to its session, `<` names a row of the answer; empty rows say nothing.
use crate::tallies::Tally;
use crate::trials::Trial;
use script::Session;
use std::io;

// No case has begun, or one.
#[derive(Clone, Copy)]
struct Progress {
    session: Session,
    trial: Option<Trial>,
}

// A title stands behind its mark and before the line feed.
fn say_title(rt: &impl Print, row: &[u8]) -> io::Result<()> {
    if 3 <= row.len() {
        rt.write_all(&row[2..row.len() - 1])?;
    }
    rt.write_all(b": ")
}

impl Progress {
    fn close(&self, rt: &impl Print, number: u64, tally: &mut Tally) -> io::Result<()> {
        match self.trial {
            Some(trial) => trial.close(rt, number, tally),
            None => Ok(()),
        }
    }

    // What stands behind the mark of a row is a line of the script, or a row of its answer.
    fn take(&mut self, rt: &impl Print, number: u64, mark: u8, row: &[u8]) -> io::Result<()> {
        let mut trial = self.trial.unwrap_or(Trial::fresh());
        match (mark, row.get(2..)) {
            (b'>', line) => self.session = trial.hand_in(rt, number, self.session, line)?,
            (b'<', Some(text)) => trial.name(rt, number, text)?,
            (_, _) => trial.fault(rt, number)?,
        }
        // A text that is named before any line is handed in begins no case.
        if self.trial.is_some() || mark != b'<' || trial.is_wrong() {
            self.trial = Some(trial);
        }
        Ok(())
    }

    fn one_row(
        &mut self,
        rt: &impl Print,
        number: u64,
        tally: &mut Tally,
        row: &[u8],
    ) -> io::Result<()> {
        match row.first().copied().unwrap_or(b'\n') {
            b'\n' => Ok(()),
            b'#' => {
                self.close(rt, number, tally)?;
                self.session = Session::begin();
                self.trial = Some(Trial::fresh());
                say_title(rt, row)
            }
            mark => self.take(rt, number, mark, row),
        }
    }
}

pub(crate) fn run_table(rt: &impl Print, tally: &mut Tally, table: &[u8]) -> io::Result<()> {
    let mut progress = Progress {
        session: Session::begin(),
        trial: None,
    };
    let mut number: u64 = 1;
    for row in table.split_inclusive(|byte| *byte == b'\n') {
        progress.one_row(rt, number, tally, row)?;
        number = number.saturating_add(1);
    }
    progress.close(rt, number, tally)
}
