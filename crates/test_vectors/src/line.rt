// A line of the input: an operation's name, its operands and what it is to give, in hexadecimal of fixed widths, with
// one blank between them.
ghost use Rattle.std.specs.Prelude.{◌≡◌, ◌<◌, IfSome};
ghost use Rattle.test_vectors.specs.Hex.{digit, word};

use crate::operation::Operation;

// An operand that the operation does not have is 0.
#[derive(Clone, Copy)]
pub struct Vector {
    pub operation: Operation,
    pub a: u64,
    pub b: u64,
    pub c: u64,
    pub want: u64,
}

// The value of an upper-case hexadecimal digit.
#[tactic(auto, unfolding(crate::specs::Hex::digit))]
fn digit(letter: u8) -> Option<u8>
    ensures value { result ≡ digit letter }
    ensures small { IfSome result (λ d. d < 16) }
{
    match letter {
        b'0'..=b'9' => Some(letter - b'0'),
        b'A'..=b'F' => Some(letter - b'A' + 10),
        _ => None,
    }
}

// The number that the letters spell: none of another letter, or of more digits than 64 bits hold.
fn hex(text: &[u8]) -> Option<u64>
    ensures { result ≡ word 0 text.now }
{
    let mut n = 0;
    for letter in text {
        let d = digit(*letter)?;
        if n >= 0x1000_0000_0000_0000 {
            return None;
        }
        n = 16 * n + u64::from(d);
    }
    Some(n)
}

// The number that so many letters spell.
fn number(text: &[u8], width: usize) -> Option<u64> {
    if text.len() == width { hex(text) } else { None }
}

// What a line says: nothing where a word is missing, too much, or not as the operation has it.
pub fn parse(text: &[u8]) -> Option<Vector> {
    // longer than any line that is well formed
    if text.len() > 100 {
        return None;
    }
    let mut words = text.split(|letter| *letter == b' ');
    let operation = Operation::named(words.next()?)?;
    let width = operation.operand_width();
    let a = number(words.next()?, width)?;
    let b = if operation.operands() > 1 {
        number(words.next()?, width)?
    } else {
        0
    };
    let c = if operation.operands() > 2 {
        number(words.next()?, width)?
    } else {
        0
    };
    let want = number(words.next()?, operation.result_width())?;
    match words.next() {
        Some(_) => None,
        None => Some(Vector {
            operation,
            a,
            b,
            c,
            want,
        }),
    }
}
