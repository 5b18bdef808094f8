// Write of a table with a long-range tail: its questions, then the file with its sixth section.
ghost use Rattle.std.specs.Prelude.{◌≡◌, ◌+◌, ◌*◌, ◌≤◌, ◌<◌, length};
ghost use Rattle.lists.specs.Lists.{put, every};
ghost use Rattle.mesh.specs.Lent.{lent};
ghost use Rattle.refusals.specs.Numbers.{asked};
ghost use Rattle.builder.specs.BuilderLists.{word_lists};
ghost use Rattle.table.specs.Bytes.{packed};
ghost use Rattle.table.specs.Tail.{term_bytes, term_valid, tail_bytes};
ghost use Rattle.writer.specs.Write.{WriteOut, written_values};
ghost use Rattle.writer.specs.Tailed.{term_at, terms_of, tail_long, handed, tail_question, tailed_question, write_tail_out};
ghost use Rattle.writer.specs.LentTail.{TermsHeld, lent_tail};

use crate::bytes::{put_f64, put_u32};
use crate::files::{put_file, write_question};
use crate::slabs::{Slabs, energy_total, file_size};
use builder::Builder;
use mesh::Mesh;
use refusals::{Asked, Refusal};
use rows::LentRows;

// The lists of a tail, as they are lent: terms as many as coefficients, and a prefactor, or none where there are no
// terms. In a contract `lent_tail` of them.
#[derive(Clone, Copy)]
pub struct LentTail<'a> {
    pub coefficients: &'a [f64],
    pub kappas: &'a [f64],
    pub powers: &'a [u32],
    pub prefactor: &'a [f64],
}

// Question 6, of these lists.
fn tail_long(tail: &LentTail) -> bool
    ensures { result ≡ tail_long (lent_tail tail.now) }
{
    let n = tail.coefficients.len();
    (n <= tail.kappas.len()) & (n <= tail.powers.len())
}

// Question 23, of a term.
fn term_fine(coefficient: f64, kappa: f64, power: u32) -> bool
    ensures { result ≡ term_valid (record { coefficient = coefficient; kappa = kappa; power = power }) }
{
    ieee::is_finite(coefficient) & (ieee::is_finite(kappa) & (power <= 2147483647))
}

// Question 23, of every term.
fn terms_fine(tail: &LentTail) -> bool
    requires { TermsHeld tail.now }
    ensures { result ≡ every term_valid (terms_of (lent_tail tail.now)) }
{
    for (i, coefficient) in tail.coefficients.iter().enumerate() {
        if !term_fine(*coefficient, tail.kappas[i], tail.powers[i]) {
            return false;
        }
    }
    true
}

// Questions 22 and 23.
#[tactic(auto, using(crate::proofs::OfTail::handed_many), unfolding(lists::specs::Questions::ask, table::specs::Tail::tail_valid, crate::specs::Tailed::tail_question))]
fn tail_question(tail: &LentTail) -> Asked
    requires { TermsHeld tail.now }
    ensures { asked result ≡ tail_question (lent_tail tail.now) }
{
    if tail.coefficients.is_empty() {
        return Ok(());
    }
    let Some(prefactor) = tail.prefactor.first() else {
        return Err(Refusal::Prefactor);
    };
    if tail.coefficients.len() > 4294967295 {
        return Err(Refusal::Term);
    }
    if !terms_fine(tail) {
        return Err(Refusal::Term);
    }
    if !ieee::is_finite(*prefactor) {
        return Err(Refusal::Term);
    }
    Ok(())
}

// Questions 1 to 7, 15 of every row, 22 and 23.
#[tactic(auto, using(refusals::proofs::Numbers::numbered, refusals::proofs::Numbers::stops, crate::proofs::OfTail::tailed_short, crate::proofs::OfTail::tailed_long), unfolding(lists::specs::Questions::first))]
fn tailed_question(b: Builder, store: &[f64], words: &[u64], mesh: &Mesh, tail: &LentTail) -> Asked
    ensures { asked result ≡ tailed_question b (lent mesh.now) (word_lists store.now words.now) (lent_tail tail.now) }
{
    if !tail_long(tail) {
        grid::question(b.grid, b.top, b.level)?;
        return Err(Refusal::ShortList);
    }
    write_question(b, store, words, mesh)?;
    tail_question(tail)
}

fn put_term(out: &mut [u8], at: u64, coefficient: f64, kappa: f64, power: u32)
    requires { at + 20 ≤ length out.old }
    ensures { out.new ≡ put out.old at (term_bytes (record { coefficient = coefficient; kappa = kappa; power = power })) }
{
    put_f64(out, at, coefficient);
    put_f64(out, at + 8, kappa);
    put_u32(out, at + 16, power);
}

// The terms, one after another.
fn put_terms(out: &mut [u8], at: u64, tail: &LentTail)
    requires { TermsHeld tail.now × (at + length tail.now.coefficients.now * 20 ≤ length out.old) }
    ensures { out.new ≡ put out.old at (packed term_bytes (terms_of (lent_tail tail.now))) }
{
    let mut to = at;
    for (i, coefficient) in tail.coefficients.iter().enumerate() {
        put_term(out, to, *coefficient, tail.kappas[i], tail.powers[i]);
        to += 20;
    }
}

// The sixth section, at a byte: none without terms.
fn put_sixth(out: &mut [u8], at: u64, tail: &LentTail)
    requires { TermsHeld tail.now × (length tail.now.coefficients.now ≤ 4294967295)
        × (0 < length tail.now.coefficients.now → (at + 12 + length tail.now.coefficients.now * 20 ≤ length out.old) × (0 < length tail.now.prefactor.now)) }
    ensures { out.new ≡ put out.old at (tail_bytes (handed (lent_tail tail.now))) }
{
    let n = tail.coefficients.len() as u64;
    if n == 0 {
        return;
    }
    put_u32(out, at, n as u32);
    put_terms(out, at + 4, tail);
    put_f64(out, at + 4 + n * 20, tail.prefactor[0]);
}

// Writes the table file of a builder with a long-range tail.
pub fn write_tail(
    b: Builder,
    store: &[f64],
    words: &[u64],
    mesh: &Mesh,
    tail: &LentTail,
    output: &mut [u8],
) -> Result<u64, Refusal>
    ensures { ◌≡◌ {A = WriteOut}
        (record { answer = written_values result; builder = b; lists = word_lists store.now words.now; output = output.new })
        (write_tail_out b (lent mesh.now) (word_lists store.now words.now) (lent_tail tail.now) output.old) }
{
    tailed_question(b, store, words, mesh, tail)?;
    let slabs = Slabs {
        rows: LentRows::Words(words),
        n: b.grid.n_r * b.grid.n_omega,
    };
    let e = energy_total(&slabs);
    let at = file_size(40, b.top, slabs.n, e);
    let size = at + table::tail_size(tail.coefficients.len() as u32);
    if (output.len() as u64) < size {
        return Err(Refusal::ShortOutput);
    }
    put_file(b, store, words, e, output);
    put_sixth(output, at, tail);
    Ok(size)
}
