// The parts and the power of a spectrum whose cells are bytes, for hosts in C, each with one plain number for an answer (document 01, Parts of the engine).
#![tactic(auto)]

ghost use Rattle.std.specs.Prelude.{◌≡◌, ◌+◌, ◌*◌, ◌/◌, ◌≤◌, length};
ghost use Rattle.kind.specs.BlockKinds.{LARGEST};
ghost use Rattle.cell_bytes.specs.CellBytes.{CELL, cell_count};
ghost use Rattle.line_bytes.specs.Inner.{PartsAnswered, PowerAnswered};

use cell_bytes::CELL;
use lent_cells::{LARGEST, MIDDLE, SMALL};

// The lines of a spectrum, 0 to N/2, in rooms for so many cells.
const SMALL_LINES: usize = SMALL / 2 + 1;

const MIDDLE_LINES: usize = MIDDLE / 2 + 1;

const LINES: usize = LARGEST / 2 + 1;

// The doubled parts of the cells that the bytes spell, with room by their number. An output that misfits is read as no cell.
pub fn parts(spectrum: &[u8], real: &mut [u8], imaginary: &mut [u8]) -> u64
    ensures { PartsAnswered spectrum.now real.old imaginary.old real.new imaginary.new result }
{
    let len = cell_bytes::cell_count(CELL * LARGEST, spectrum.len());
    if len <= MIDDLE {
        parts_in::<MIDDLE, MIDDLE_LINES>(spectrum, real, imaginary, len)
    } else {
        parts_in::<LARGEST, LINES>(spectrum, real, imaginary, len)
    }
}

// The parts, in rooms for CELLS cells that are read and for as many lines as these have.
fn parts_in<const CELLS: usize, const LINES: usize>(
    spectrum: &[u8],
    real: &mut [u8],
    imaginary: &mut [u8],
    len: usize,
) -> u64
    requires room { (len ≤ CELLS) × (CELLS ≤ LARGEST) × (LINES ≡ CELLS / 2 + 1) }
    requires counted { len ≡ cell_count (CELL * LARGEST) (length spectrum.now) }
    ensures { PartsAnswered spectrum.now real.old imaginary.old real.new imaginary.new result }
{
    let mut cells = [0i64; CELLS];
    let mut reals = [0i64; LINES];
    let mut imaginaries = [0i64; LINES];
    let cells = &mut cells[..len];
    let reals = &mut reals[..cell_bytes::fit_count(len / 2 + 1, real.len())];
    let imaginaries = &mut imaginaries[..cell_bytes::fit_count(len / 2 + 1, imaginary.len())];
    cell_bytes::decode(spectrum, cells);
    let answer = packing::packed(fourier::parts(cells, reals, imaginaries));
    lent_cells::write_back(answer, reals, real);
    lent_cells::write_back(answer, imaginaries, imaginary);
    answer
}

// The doubled power of the cells that the bytes spell, with room by their number. An output that misfits is read as no cell.
pub fn power(spectrum: &[u8], powers: &mut [u8]) -> u64
    ensures { PowerAnswered spectrum.now powers.old powers.new result }
{
    let len = cell_bytes::cell_count(CELL * LARGEST, spectrum.len());
    if len <= SMALL {
        power_in::<SMALL, SMALL_LINES>(spectrum, powers, len)
    } else if len <= MIDDLE {
        power_in::<MIDDLE, MIDDLE_LINES>(spectrum, powers, len)
    } else {
        power_in::<LARGEST, LINES>(spectrum, powers, len)
    }
}

// The power, in rooms for CELLS cells that are read and for as many lines as these have.
fn power_in<const CELLS: usize, const LINES: usize>(
    spectrum: &[u8],
    powers: &mut [u8],
    len: usize,
) -> u64
    requires room { (len ≤ CELLS) × (CELLS ≤ LARGEST) × (LINES ≡ CELLS / 2 + 1) }
    requires counted { len ≡ cell_count (CELL * LARGEST) (length spectrum.now) }
    ensures { PowerAnswered spectrum.now powers.old powers.new result }
{
    let mut cells = [0i64; CELLS];
    let mut values = [0i64; LINES];
    let cells = &mut cells[..len];
    let values = &mut values[..cell_bytes::fit_count(len / 2 + 1, powers.len())];
    cell_bytes::decode(spectrum, cells);
    let answer = packing::packed(fourier::power(cells, values));
    lent_cells::write_back(answer, values, powers);
    answer
}
