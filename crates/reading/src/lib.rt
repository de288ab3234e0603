// A certificate that is read whole: every record in its turn, and where the records stand.
#![tactic(auto)]

ghost use Rattle.std.specs.Prelude.{◌≡◌};
ghost use Rattle.certificate.specs.Reading.{reading_of};
ghost use Rattle.reading.specs.Layouts.{LaidOut};

mod fields;
mod records;

use certificate::limits;
pub use records::read;

// What a readable certificate holds how many of, where its records stand, and how long the records of modes are: in `grids` 0 for a link that there is not.
#[derive(Clone, Copy)]
pub struct Layout {
    pub links: usize,
    pub turns: usize,
    pub signals: usize,
    pub modes: usize,
    pub boxes: usize,
    pub entries: usize,
    pub turns_start: usize,
    pub signals_start: usize,
    pub modes_start: usize,
    pub mode_size: usize,
    pub grids: [usize; limits::MAX_LINKS],
    pub arrivals_start: usize,
    pub entries_start: usize,
    pub cells: usize,
}

// A certificate that reading passes, and where its records stand.
#[derive(Clone, Copy)]
pub struct Certificate<'a> {
    pub bytes: &'a [u8],
    pub layout: Layout,
    ghost readable: { (reading_of bytes.now).number ≡ 0 },
    ghost laid: { LaidOut bytes.now layout },
}
