// Compares the operations of `ieee` and `float` with the vectors on its standard input, one a line: the operation's
// name, its operands' bits and the bits that it is to give. Writes the first lines that differ, and for each operation
// how many agree.
#![tactic(auto)]

ghost use Rattle.std.specs.Prelude.{◌≤◌, length};
ghost use Rattle.std.specs.Io.{ReadsAtMost};

use std::io;
use std::io::Read;

mod line;
mod operation;
mod tally;

use tally::Tally;

// How many of the bytes can be judged: all where the input ended, and else those up to the last line end.
fn ready(piece: &[u8], is_last: bool) -> usize
    ensures { result ≤ length piece.now }
{
    if is_last {
        return piece.len();
    }
    piece
        .iter()
        .rposition(|letter| *letter == b'\n')
        .map_or(0, |place| place + 1)
}

// Runs one line, and counts how it went.
fn judge(rt: &impl Print, text: &[u8], t: &mut Tally) -> io::Result<()> {
    match line::parse(text) {
        None => t.count_malformed(rt, text),
        Some(v) => {
            let got = v.operation.run(v.a, v.b, v.c);
            t.count(rt, v.operation, got == v.operation.settled(v.want), text)
        }
    }
}

// Runs every line of the text.
fn judge_all(rt: &impl Print, text: &[u8], t: &mut Tally) -> io::Result<()> {
    for line in text.split_inclusive(|letter| *letter == b'\n') {
        judge(rt, line.strip_suffix(b"\n").unwrap_or(line), t)?;
    }
    Ok(())
}

// Reads until the piece is full or the input ends, and answers how many bytes it put at the start of the piece.
fn read_full(input: &mut impl Read, piece: &mut [u8]) -> io::Result<usize>
    ensures { ReadsAtMost result piece.new }
{
    let mut done = 0;
    while done < piece.len() {
        let n = input.read(&mut piece[done..])?;
        if n == 0 {
            break;
        }
        done += n;
    }
    Ok(done)
}

// Runs the lines of the input, which is read as far as the piece has room. What is left of a line goes to the front. A
// line that is longer than the piece is malformed, and ends the reading.
fn judge_input<R: Input + Print>(rt: &R, piece: &mut [u8], t: &mut Tally) -> io::Result<()> {
    let mut input = rt.reader();
    let mut have = 0;
    // Nothing says that the input ends, and a proved loop does: these are more turns than any input takes.
    for _ in 0..u64::MAX {
        let more = read_full(&mut input, &mut piece[have..])?;
        let filled = have + more;
        let end = ready(&piece[..filled], more == 0);
        judge_all(rt, &piece[..end], t)?;
        piece.copy_within(end..filled, 0);
        have = filled - end;
        if more == 0 {
            break;
        }
    }
    Ok(())
}

fn main(rt: HostRuntime) -> io::Result<()> {
    let mut piece = [0; 65536];
    let mut t = Tally::new();
    judge_input(&rt, &mut piece, &mut t)?;
    t.report(&rt)
}
