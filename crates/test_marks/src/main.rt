// Works out the marks of document 01 with the compiled operations, and prints each beside what the document says.
#![tactic(auto)]

use std::io;

// The bits of an f32, by its value as an f64.
fn widened(x: f32) -> u64 {
    bits::bits64(float::widen(x))
}

fn mark(rt: &impl Print, what: &str, got: u64, marked: u64) -> io::Result<()> {
    print!(rt; "{what}: {got:016x}")?;
    if got == marked {
        println!(rt; ", as marked")
    } else {
        println!(rt; ", but the mark is {marked:016x}")
    }
}

fn numbers(rt: &impl Print) -> io::Result<()> {
    mark(
        rt,
        "root of 2",
        bits::bits64(ieee::root(2.0)),
        0x3ff6_a09e_667f_3bcd,
    )?;
    let e = 1.0 / 1073741824.0;
    mark(
        rt,
        "fused (1+2^-30)(1-2^-30) - 1",
        bits::bits64(ieee::mul_add(1.0 + e, 1.0 - e, -1.0)),
        0xbc30_0000_0000_0000,
    )?;
    mark(
        rt,
        "16777217 narrowed",
        widened(ieee::narrow(16777217.0)),
        bits::bits64(16777216.0),
    )?;
    mark(
        rt,
        "16777219 narrowed",
        widened(ieee::narrow(16777219.0)),
        bits::bits64(16777220.0),
    )?;
    mark(rt, "E(0)", bits::bits64(float::exp(0.0)), bits::bits64(1.0))
}

fn bins(rt: &impl Print) -> io::Result<()> {
    mark(
        rt,
        "rmin 0, dr 1, four bins: bin of r 0.5",
        grid::distance_bin(0.5, 0.0, 1.0, 4),
        1,
    )?;
    mark(rt, "bin of r 4", grid::distance_bin(4.0, 0.0, 1.0, 4), 3)?;
    mark(rt, "step 3: bins", grid::dihedral_count(3.0), 2)?;
    mark(rt, "bin of omega 6", grid::dihedral_bin(6.0, 3.0, 2), 0)?;
    let g = grid::Grid {
        rmin: 0.0,
        rmax: 1.79e308,
        dr: 1.1e308,
        omega_step: 6.0,
        threshold: 0.1,
        beta: 1.0,
        n_r: 0,
        n_omega: 0,
    };
    mark(
        rt,
        "rmin 0, rmax 1.79e308, dr 1.1e308: the question that refuses",
        refusals::number_of(grid::fresh_question(g, 0)),
        4,
    )
}

fn main(rt: HostRuntime) -> io::Result<()> {
    numbers(&rt)?;
    bins(&rt)
}
