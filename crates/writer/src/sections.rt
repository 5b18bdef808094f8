// The bytes of each section of a table file.
ghost use Rattle.std.specs.Prelude.{◌≡◌, map, ◌+◌, ◌*◌, ◌≤◌, length};
ghost use Rattle.std.specs.Float.{binary32, binary64};
ghost use Rattle.std.specs.Float.Ieee.{to_bits};
ghost use Rattle.lists.specs.Lists.{put, below};
ghost use Rattle.mesh.specs.Levels.{vertex_count};
ghost use Rattle.rows.specs.Rows.{narrow_bits};
ghost use Rattle.table.specs.Bytes.{bytes_of, packed, section};
ghost use Rattle.table.specs.File.{entry_bytes};
ghost use Rattle.writer.specs.Slabs.{each_in, slab_rows, slab_lists};
ghost use Rattle.writer.specs.Internal.{entry_for, offset_of, entries_for, total, energies_for, Bounded, head_bytes, rest_bytes, WriteReady};

use crate::bytes::{put_f64, put_u32};
use crate::slabs::{Slabs, energies_at, energy_count};
use rows::SlabResolution;

// Whole numbers, one after another.
fn put_numbers(out: &mut [u8], at: u64, list: &[u32])
    requires { at + length list.now * 4 ≤ length out.old }
    ensures { out.new ≡ put out.old at (packed (bytes_of 4) list.now) }
{
    let mut to = at;
    for x in list {
        put_u32(out, to, *x);
        to += 4;
    }
}

fn put_doubles(out: &mut [u8], at: u64, list: &[f64])
    requires { at + length list.now * 8 ≤ length out.old }
    ensures { out.new ≡ put out.old at (packed (bytes_of 8) (map (to_bits binary64) list.now)) }
{
    let mut to = at;
    for x in list {
        put_f64(out, to, *x);
        to += 8;
    }
}

// The two head sections, of a grid's settings and of its bin counts.
pub(crate) fn put_head(out: &mut [u8], settings: &[f64], counts: &[u32])
    requires { (8 + length settings.now * 8 + length counts.now * 4 ≤ length out.old) × (length settings.now ≤ 3) × (length counts.now ≤ 2) }
    ensures { out.new ≡ put out.old 0 (head_bytes (map (to_bits binary64) settings.now) counts.now) }
{
    let at = 4 + 8 * settings.len() as u64;
    put_u32(out, 0, settings.len() as u32);
    put_doubles(out, 4, settings);
    put_u32(out, at, counts.len() as u32);
    put_numbers(out, at + 4, counts);
}

fn put_vertex_counts(out: &mut [u8], at: u64, levels: u64)
    requires { (at + 4 * levels ≤ length out.old) × (levels ≤ 16) }
    ensures { out.new ≡ put out.old at (packed (bytes_of 4) (map vertex_count (below levels))) }
{
    for m in 0..levels {
        put_u32(out, at + 4 * m, mesh::vertex_count(m as u8) as u32);
    }
}

fn put_levels(out: &mut [u8], at: u64, levels: u64)
    requires { (at + 4 + 4 * levels ≤ length out.old) × (levels ≤ 16) }
    ensures { out.new ≡ put out.old at (section (bytes_of 4) (map vertex_count (below levels))) }
{
    put_u32(out, at, levels as u32);
    put_vertex_counts(out, at + 4, levels);
}

// Only a row with energies has an offset.
fn offset_of(x: SlabResolution, o: u32) -> u32
    ensures { result ≡ offset_of o x }
{
    match x {
        SlabResolution::Mesh(_, _) => o,
        SlabResolution::Scalar(_) | SlabResolution::Repulsive => 0xffff_ffff,
    }
}

// A row whose energies, if it has any, are at place o.
fn put_row(out: &mut [u8], at: u64, x: SlabResolution, o: u32)
    requires { at + 10 ≤ length out.old }
    ensures { out.new ≡ put out.old at (entry_bytes (entry_for o x)) }
{
    let i = at as usize;
    out[i] = rows::kind_of(x);
    out[i + 1] = rows::level_of(x);
    put_u32(out, at + 2, offset_of(x, o));
    put_u32(out, at + 6, rows::value_of(x));
}

// The rows, one after another; their energies are packed in row order.
fn put_entries(out: &mut [u8], at: u64, slabs: &Slabs)
    requires { (at + slabs.now.n * 10 ≤ length out.old) × (total (each_in slabs.now) (slab_rows slabs.now) ≤ 4294967295) }
    ensures { out.new ≡ put out.old at (packed entry_bytes (entries_for (each_in slabs.now) 0 (slab_rows slabs.now))) }
{
    let mut to = at;
    let mut o = 0;
    for s in 0..slabs.n {
        let x = rows::resolution_by(&slabs.rows, s);
        put_row(out, to, x, o as u32);
        o += energy_count(&slabs.rows, x);
        to += 10;
    }
}

fn put_floats(out: &mut [u8], at: u64, list: &[f32])
    requires { at + length list.now * 4 ≤ length out.old }
    ensures { out.new ≡ put out.old at (packed (bytes_of 4) (map (to_bits binary32) list.now)) }
{
    let mut to = at;
    for x in list {
        put_u32(out, to, bits::bits32(*x));
        to += 4;
    }
}

// Energies that the block has room for, narrowed.
fn put_block(out: &mut [u8], at: u64, energies: &[f64], block: &mut [f32])
    requires { (at + length energies.now * 4 ≤ length out.old) × (length energies.now ≤ length block.old) }
    ensures { out.new ≡ put out.old at (packed (bytes_of 4) (map narrow_bits energies.now)) }
{
    ieee::narrow_list(energies, block);
    put_floats(out, at, &block[..energies.len()]);
}

// The energies of one row, narrowed, a block at a time.
fn put_energies(out: &mut [u8], at: u64, energies: &[f64])
    requires { at + length energies.now * 4 ≤ length out.old }
    ensures { out.new ≡ put out.old at (packed (bytes_of 4) (map narrow_bits energies.now)) }
{
    let mut block = [0.0f32; 248];
    let mut to = at;
    for part in energies.chunks(248) {
        put_block(out, to, part, &mut block);
        to += 4 * part.len() as u64;
    }
}

// The energies of all rows, in row order; slabs are z places apart in the store.
fn put_slabs(out: &mut [u8], at: u64, z: u64, store: &[f64], slabs: &Slabs)
    requires { (at + total (each_in slabs.now) (slab_rows slabs.now) * 4 ≤ length out.old)
        × (slabs.now.n * z ≤ length store.now) × (Bounded (each_in slabs.now) z (slab_rows slabs.now)) }
    ensures { out.new ≡ put out.old at (packed (bytes_of 4) (energies_for (each_in slabs.now) z store.now 0 (slab_rows slabs.now))) }
{
    let mut to = at;
    let mut p = 0;
    for s in 0..slabs.n {
        let k = energy_count(&slabs.rows, rows::resolution_by(&slabs.rows, s));
        let from = p as usize;
        put_energies(out, to, &store[from..from + k as usize]);
        to += 4 * k;
        p += z;
    }
}

// The section of rows.
fn put_rows(out: &mut [u8], at: u64, slabs: &Slabs)
    requires { (at + 4 + slabs.now.n * 10 ≤ length out.old) × (slabs.now.n ≤ 4294967295)
        × (total (each_in slabs.now) (slab_rows slabs.now) ≤ 4294967295) }
    ensures { out.new ≡ put out.old at (section entry_bytes (entries_for (each_in slabs.now) 0 (slab_rows slabs.now))) }
{
    put_u32(out, at, slabs.n as u32);
    put_entries(out, at + 4, slabs);
}

// The section of energies, of which there are e.
fn put_energy_section(out: &mut [u8], at: u64, e: u64, z: u64, store: &[f64], slabs: &Slabs)
    requires { (at + 4 + e * 4 ≤ length out.old) × (e ≤ 4294967295) × (e ≡ total (each_in slabs.now) (slab_rows slabs.now))
        × (slabs.now.n * z ≤ length store.now) × (Bounded (each_in slabs.now) z (slab_rows slabs.now)) }
    ensures { out.new ≡ put out.old at (section (bytes_of 4) (energies_for (each_in slabs.now) z store.now 0 (slab_rows slabs.now))) }
{
    put_u32(out, at, e as u32);
    put_slabs(out, at + 4, z, store, slabs);
}

// The sections behind the heads, which end at byte `at`: those of slabs whose rows hold e energies together.
pub(crate) fn put_rest(out: &mut [u8], at: u64, top: u64, e: u64, store: &[f64], slabs: &Slabs)
    requires { WriteReady (each_in slabs.now) at top slabs.now.n (slab_lists store.now slabs.now) e (length out.old) × (at ≤ 40) }
    ensures { out.new ≡ put out.old at (rest_bytes (each_in slabs.now) top slabs.now.n (slab_lists store.now slabs.now)) }
{
    let z = energies_at(&slabs.rows, top as u8);
    let rows = at + 8 + 4 * top;
    put_levels(out, at, top + 1);
    put_rows(out, rows, slabs);
    put_energy_section(out, rows + 4 + 10 * slabs.n, e, z, store, slabs);
}
