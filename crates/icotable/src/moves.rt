// Rows moved between the three lists and words.
ghost use Rattle.std.specs.Prelude.{◌≡◌};
ghost use Rattle.rows.specs.Rows.{rows_of};
ghost use Rattle.words.specs.Moves.{ToWords, rows_to_words, ToRows, words_to_rows};

#[unsafe(no_mangle)]
pub extern "C" fn icotable_rows_to_words(
    rows: u64,
    kinds: &[u8],
    levels: &[u8],
    values: &[u32],
    words: &mut [u64],
) -> u64
    ensures { ◌≡◌ {A = ToWords}
        (record { number = result; words = words.new })
        (rows_to_words rows (rows_of kinds.now levels.now values.now) words.old) }
{
    refusals::number_of(words::rows_to_words(rows, kinds, levels, values, words))
}

#[unsafe(no_mangle)]
pub extern "C" fn icotable_words_to_rows(
    rows: u64,
    words: &[u64],
    kinds: &mut [u8],
    levels: &mut [u8],
    values: &mut [u32],
) -> u64
    ensures { ◌≡◌ {A = ToRows}
        (record { number = result; rows = rows_of kinds.new levels.new values.new })
        (words_to_rows rows words.now (rows_of kinds.old levels.old values.old)) }
{
    refusals::number_of(words::words_to_rows(rows, words, kinds, levels, values))
}
