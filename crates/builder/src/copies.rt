// Writing into lent lists.
ghost use Rattle.std.specs.Prelude.{◌≡◌, ◌+◌, ◌*◌, ◌≤◌, length, replicate};
ghost use Rattle.lists.specs.Lists.{put};
ghost use Rattle.settling.specs.Gradient.{zero};
ghost use Rattle.builder.specs.BuilderLists.{BuilderLists, lists_of, word_lists};
ghost use Rattle.builder.specs.Calls.{filled_slabs, slab_set};

use rows::SlabResolution;

// Writes a list into another from a place on, by a loop: the library's copy of a slice calls memmove, which nothing else
// here needs of a host.
fn copy_at(dst: &mut [f64], at: usize, src: &[f64])
    requires { at + length src.now ≤ length dst.old }
    ensures { dst.new ≡ put dst.old at src.now }
{
    for (j, x) in src.iter().enumerate() {
        dst[at + j] = *x;
    }
}

// The first n energies 0.0.
#[tactic(auto, unfolding(lists::specs::Lists::put))]
fn clear_store(store: &mut [f64], n: usize)
    requires { n ≤ length store.old }
    ensures { store.new ≡ put store.old 0 (replicate n zero) }
{
    store[..n].fill(0.0);
}

// The first n rows Scalar 0.0.
#[tactic(auto, unfolding(lists::specs::Lists::put))]
fn clear_rows(kinds: &mut [u8], levels: &mut [u8], values: &mut [u32], n: usize)
    requires { (n ≤ length kinds.old) × (n ≤ length levels.old) × (n ≤ length values.old) }
    ensures { (kinds.new ≡ put kinds.old 0 (replicate n 0)) × (levels.new ≡ put levels.old 0 (replicate n 0))
        × (values.new ≡ put values.old 0 (replicate n 0)) }
{
    kinds[..n].fill(0);
    levels[..n].fill(0);
    values[..n].fill(0);
}

// The first n words 0, the word of Scalar 0.0.
#[tactic(auto, unfolding(lists::specs::Lists::put))]
fn clear_words(words: &mut [u64], n: usize)
    requires { n ≤ length words.old }
    ensures { words.new ≡ put words.old 0 (replicate n 0) }
{
    words[..n].fill(0);
}

// n slabs of z energies each, with none set.
#[tactic(auto, using(crate::proofs::Laws::filled_words))]
pub(crate) fn clear_slabs(n: u64, z: u64, store: &mut [f64], words: &mut [u64])
    requires { (n * z ≤ length store.old) × (n ≤ length words.old) }
    ensures { ◌≡◌ {A = BuilderLists} (word_lists store.new words.new)
        (filled_slabs n z (word_lists store.old words.old)) }
{
    clear_store(store, (n * z) as usize);
    clear_words(words, n as usize);
}

// The same, the rows being three lists.
#[tactic(auto, unfolding(crate::specs::Calls::filled_slabs))]
pub(crate) fn atom_clear_slabs(
    n: u64,
    z: u64,
    store: &mut [f64],
    kinds: &mut [u8],
    levels: &mut [u8],
    values: &mut [u32],
)
    requires { (n * z ≤ length store.old) × (n ≤ length kinds.old) × (n ≤ length levels.old) × (n ≤ length values.old) }
    ensures { ◌≡◌ {A = BuilderLists} (lists_of store.new kinds.new levels.new values.new)
        (filled_slabs n z (lists_of store.old kinds.old levels.old values.old)) }
{
    clear_store(store, (n * z) as usize);
    clear_rows(kinds, levels, values, n as usize);
}

// Gives slab s its energies; a slab has room for z.
#[tactic(auto, unfolding(crate::specs::Calls::slab_set))]
pub(crate) fn set_slab(
    z: u64,
    level: u8,
    store: &mut [f64],
    words: &mut [u64],
    s: u64,
    energies: &[f64],
)
    requires { s * z + length energies.now ≤ length store.old }
    ensures { ◌≡◌ {A = BuilderLists} (word_lists store.new words.new)
        (slab_set z level (word_lists store.old words.old) s energies.now) }
{
    copy_at(store, (s * z) as usize, energies);
    rows::replace_in(words, s, SlabResolution::Mesh(level, true));
}

// The same, the rows being three lists.
#[tactic(auto, unfolding(crate::specs::Calls::slab_set))]
pub(crate) fn atom_set_slab(
    z: u64,
    level: u8,
    store: &mut [f64],
    kinds: &mut [u8],
    levels: &mut [u8],
    values: &mut [u32],
    s: u64,
    energies: &[f64],
)
    requires { s * z + length energies.now ≤ length store.old }
    ensures { ◌≡◌ {A = BuilderLists} (lists_of store.new kinds.new levels.new values.new)
        (slab_set z level (lists_of store.old kinds.old levels.old values.old) s energies.now) }
{
    copy_at(store, (s * z) as usize, energies);
    rows::replace(kinds, levels, values, s, SlabResolution::Mesh(level, true));
}
