// How many lines there were and how many agreed.
use crate::operation;
use crate::operation::Operation;
use std::io;

// How many lines that differ or are malformed are written out.
const SHOWN: u64 = 8;

// The lines of an operation, and those that agree.
#[derive(Clone, Copy)]
struct Count {
    lines: u64,
    agree: u64,
}

#[derive(Clone, Copy)]
pub struct Tally {
    counts: [Count; operation::COUNT],
    malformed: u64,
    shown: u64,
}

impl Tally {
    pub fn new() -> Tally {
        Tally {
            counts: [Count { lines: 0, agree: 0 }; operation::COUNT],
            malformed: 0,
            shown: 0,
        }
    }

    // Counts a line of the operation, and writes it where it does not agree.
    pub fn count(
        &mut self,
        rt: &impl Print,
        operation: Operation,
        agrees: bool,
        text: &[u8],
    ) -> io::Result<()> {
        let count = &mut self.counts[operation.place()];
        count.lines = count.lines.saturating_add(1);
        if agrees {
            count.agree = count.agree.saturating_add(1);
            return Ok(());
        }
        self.show(rt, b"differs: ", text)
    }

    pub fn count_malformed(&mut self, rt: &impl Print, text: &[u8]) -> io::Result<()> {
        self.malformed = self.malformed.saturating_add(1);
        self.show(rt, b"malformed: ", text)
    }

    // Writes a line of the input, unless enough have been written.
    fn show(&mut self, rt: &impl Print, why: &[u8], text: &[u8]) -> io::Result<()> {
        if self.shown >= SHOWN {
            return Ok(());
        }
        rt.write_all(why)?;
        rt.write_all(text)?;
        rt.write_all(b"\n")?;
        self.shown += 1;
        Ok(())
    }

    // Writes the counts of each operation and of all, and a complaint where there were malformed lines.
    pub fn report(&self, rt: &impl Print) -> io::Result<()> {
        let mut all = Count { lines: 0, agree: 0 };
        for (operation, count) in operation::ALL.iter().zip(&self.counts) {
            write_count(rt, operation.name(), count)?;
            all.agree = all.agree.saturating_add(count.agree);
            all.lines = all.lines.saturating_add(count.lines);
        }
        write_count(rt, "all", &all)?;
        if self.malformed > 0 {
            println!(rt; "malformed lines: {}", self.malformed)?;
        }
        Ok(())
    }
}

fn write_count(rt: &impl Print, name: &str, count: &Count) -> io::Result<()> {
    println!(rt; "{name}: {} of {} agree", count.agree, count.lines)
}
