// The state of Third, with what every value of it keeps.
ghost use Rattle.back_end.specs.Kept.{meaning_with};
ghost use Rattle.third.specs.State.{Keeps};

use back_end::Progress;
use console_sets::MAX_CONSOLES;

// The back end Third. Console c has its estimate and its verdict at the index c - 1, 0 for none as in the entries and
// verdicts of the interface.
#[derive(Drop)]
pub struct Third {
    pub(crate) progress: Progress,
    pub(crate) estimates: [u8; MAX_CONSOLES],
    pub(crate) verdicts: [u8; MAX_CONSOLES],
    ghost keeps: { Keeps (meaning_with progress verdicts) estimates },
}
