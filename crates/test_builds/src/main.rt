// Builds small tables from settings alone, with the compiled operations, and prints what document 01 says of them
// beside what came out.
#![tactic(auto)]

use builder::{Builder, Settled};
use grid::Grid;
use refusals::Refusal;
use std::io;
use test_meshes::Meshes;

mod accident;

pub(crate) fn say(rt: &impl Print, what: &str, got: u64, wanted: u64) -> io::Result<()> {
    print!(rt; "{what}: {got}")?;
    if got == wanted {
        println!(rt; ", as it should be")
    } else {
        println!(rt; ", but it should be {wanted}")
    }
}

// 0 where a call was accepted, else its number.
pub(crate) fn number<T: Copy>(a: Result<T, Refusal>) -> u64 {
    a.map_or_else(|e| e.number(), |_| 0)
}

// rmin 0, dr 1, beta 1, threshold 0.1
pub(crate) fn settings(rmax: f64, omega_step: f64) -> Grid {
    Grid {
        rmin: 0.0,
        rmax,
        dr: 1.0,
        omega_step,
        threshold: 0.1,
        beta: 1.0,
        n_r: 0,
        n_omega: 0,
    }
}

// A builder that every call refuses.
fn none() -> Builder {
    Builder {
        grid: settings(1.0, 6.0),
        top: 99,
        level: 99,
        packed: 0,
    }
}

// The builder that fresh answers; one that every call refuses where it does not.
pub(crate) fn begun(g: Grid, top: u64, store: &mut [f64], words: &mut [u64]) -> Builder {
    let meshes = Meshes::new();
    builder::fresh(g, top, store, words, &meshes.lent()).unwrap_or(none())
}

// The length of the file that write answers, or its number.
pub(crate) fn written(b: Builder, store: &[f64], words: &[u64], output: &mut [u8]) -> u64 {
    let meshes = Meshes::new();
    writer::write(b, store, words, &meshes.lent(), output).unwrap_or_else(|e| e.number())
}

// What settle answers, over the two meshes.
pub(crate) fn settled(
    b: Builder,
    ri: u64,
    store: &[f64],
    words: &mut [u64],
) -> Result<Settled<Builder>, Refusal> {
    let meshes = Meshes::new();
    builder::settle(b, store, words, &meshes.lent(), ri)
}

// The bytes of a file in groups, as document 01 groups them: the sections of grid, bins and levels, then those of rows
// and energies.
fn grouped(rt: &impl Print, file: &[u8]) -> io::Result<()> {
    let mut rest = file;
    for n in [4, 8, 8, 8, 4, 4, 4, 4, 4, 4, 1, 1, 4, 4, 4] {
        let (bytes, behind) = rest.split_at(rest.len().min(n));
        for byte in bytes {
            print!(rt; "{byte:02x}")?;
        }
        print!(rt; " ")?;
        rest = behind;
    }
    println!(rt)
}

// The table of rmin 0, rmax 1, dr 1, step 6, top level 0 with nothing set: the 66 bytes.
fn nothing_set(rt: &impl Print) -> io::Result<()> {
    let mut store = [1.0; 144];
    let mut words = [u64::MAX; 1];
    let mut output = [0; 66];
    let b = begun(settings(1.0, 6.0), 0, &mut store, &mut words);
    let n = written(b, &store, &words, &mut output);
    say(rt, "bytes with nothing set", n, 66)?;
    grouped(rt, &output)
}

// One slab of level 0 with 144 equal energies: the file's length, then the comparisons, and the kind and the value that
// the slab settles to.
fn one_slab(
    rt: &impl Print,
    what: &str,
    energy: f64,
    kind: u64,
    comparisons: u64,
) -> io::Result<()> {
    let mut store = [1.0; 144];
    let mut words = [u64::MAX; 1];
    let mut output = [0; 700];
    let energies = [energy; 144];
    let b = begun(settings(1.0, 6.0), 0, &mut store, &mut words);
    let no = number(builder::set(b, &mut store, &mut words, 0, 0, &energies));
    print!(rt; "{what}")?;
    say(rt, ", set", no, 0)?;
    say(rt, "  bytes", written(b, &store, &words, &mut output), 642)?;
    let a = settled(b, 0, &store, &mut words);
    say(rt, "  settled", number(a), 0)?;
    say(
        rt,
        "  comparisons",
        a.map_or(0, |s| s.comparisons),
        comparisons,
    )?;
    let word = words[0];
    say(rt, "  kind", word / 1099511627776, kind)?;
    say(rt, "  value", word % 4294967296, 0)
}

fn main(rt: HostRuntime) -> io::Result<()> {
    nothing_set(&rt)?;
    one_slab(&rt, "144 tens", 10.0, 1, 0)?;
    one_slab(&rt, "144 zeros", 0.0, 0, 1440)?;
    accident::settled_twice(&rt)
}
