// Right and wrong cases are counted, and their counts printed.
use std::io;

// How many cases were run, and how many of them were wrong.
#[derive(Clone, Copy)]
pub(crate) struct Tally {
    pub(crate) cases: u64,
    pub(crate) wrong: u64,
}

impl Tally {
    pub(crate) fn right(&mut self, rt: &impl Print) -> io::Result<()> {
        self.cases = self.cases.saturating_add(1);
        println!(rt; "ok")
    }

    // What went wrong was printed already.
    pub(crate) fn wrong(&mut self) {
        self.cases = self.cases.saturating_add(1);
        self.wrong = self.wrong.saturating_add(1);
    }

    pub(crate) fn missing(&mut self, rt: &impl Print, path: &str) -> io::Result<()> {
        self.wrong();
        println!(rt; "{path}: WRONG, it cannot be read whole")
    }

    pub(crate) fn print(&self, rt: &impl Print) -> io::Result<()> {
        let cases = self.cases;
        let wrong = self.wrong;
        println!(rt; "{cases} cases, {wrong} wrong")
    }
}
