// Lists that loops read and write, chains of questions, and the laws of both; and an entry of a list that may not be there.
#![tactic(auto)]

ghost use Rattle.std.specs.Prelude.{◌≡◌, get_or, set};

// The entry at a place, or what stands for one beyond the list's end.
pub fn entry_or<T: Copy>(list: &[T], at: usize, beyond: T) -> T
    ensures { result ≡ get_or list.now at beyond }
{
    if at < list.len() { list[at] } else { beyond }
}

// Replaces the entry at a place; nothing is written beyond the list's end.
pub fn replace_entry<T: Copy>(list: &mut [T], at: usize, x: T)
    ensures { list.new ≡ set list.old at x }
{
    if at < list.len() {
        list[at] = x;
    }
}
