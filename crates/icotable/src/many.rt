// Many readings in one call.
ghost use Rattle.std.specs.Prelude.{◌≡◌};
ghost use Rattle.search.specs.Search.{locator_of};
ghost use Rattle.reading.specs.Poses.{way_by, ReadingsOut, readings_out};
ghost use Rattle.icotable.specs.Answers.{table_from};

use crate::TableAnswer;
use search::Locator;

// The readings of as many poses as the shortest list has room for: plain without a beta, weighted with the first one.
#[unsafe(no_mangle)]
pub extern "C" fn icotable_readings(
    table: &TableAnswer,
    file: &[u8],
    vertices: &[f64],
    cell_offsets: &[u32],
    cell_vertices: &[u16],
    face_offsets: &[u32],
    faces: &[u16],
    poses: &[f64],
    beta: &[f64],
    numbers: &mut [u64],
    answers: &mut [f64],
) -> u64
    ensures { ◌≡◌ {A = ReadingsOut}
        (record { count = result; numbers = numbers.new; answers = answers.new })
        (readings_out file.now (table_from table.now) vertices.now
        (locator_of cell_offsets.now cell_vertices.now face_offsets.now faces.now)
        (way_by beta.now) poses.now numbers.old answers.old) }
{
    let locator = Locator {
        cell_offsets,
        cell_vertices,
        face_offsets,
        faces,
    };
    reading::lookup_all(
        (*table).into(),
        file,
        vertices,
        &locator,
        poses,
        beta,
        numbers,
        answers,
    )
}
