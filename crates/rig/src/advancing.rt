// The panel after a round.
ghost use Rattle.std.specs.Prelude.{◌≡◌, ℕ, ◌<◌};
ghost use Rattle.console_sets.specs.Bound.{max_consoles};
ghost use Rattle.rounds.specs.Bound.{max_rounds};
ghost use Rattle.rounds.specs.Items.{at};
ghost use Rattle.front.specs.Consoles.{state_of};
ghost use Rattle.rig.specs.Steps.{after_round, Advanced};

use crate::later::after_later;
use crate::panel::Panel;
use console_sets::{ConsoleSet, MAX_CONSOLES, difference};
use front::{Console, after_deciding, after_halting};

// The panel one round on, with the verdicts that the back end then has. It is the same by any `told` that agrees with them.
pub(crate) fn advanced(
    panel: &Panel,
    falls: ConsoleSet,
    rows: &[ConsoleSet],
    verdicts: &[u8; MAX_CONSOLES],
) -> Panel
    requires { panel.now.rounds < max_rounds }
    ensures { (told : ℕ → ℕ) → ((c : ℕ) → c < max_consoles → at verdicts.now c ≡ told c) → Advanced panel.now falls rows.now told result }
{
    let running = difference(panel.running, falls);
    let rounds = panel.rounds + 1;
    Panel {
        number: panel.number,
        n: panel.n,
        t: panel.t,
        running,
        press: panel.press,
        open: panel.open,
        rounds,
        ranks: panel.ranks,
        consoles: after_round(panel, rounds, running, rows, verdicts),
    }
}

// What each console has after round k.
fn after_round(
    panel: &Panel,
    k: u32,
    completing: ConsoleSet,
    rows: &[ConsoleSet],
    verdicts: &[u8; MAX_CONSOLES],
) -> [Console; MAX_CONSOLES]
    ensures { (c : ℕ) → state_of result c ≡ after_round panel.now k completing rows.now (at verdicts.now) c }
{
    let deciding = panel.t as u32 + 2;
    if k < deciding {
        after_halting(panel.n, &panel.ranks, completing, rows, &panel.consoles)
    } else if k == deciding {
        after_deciding(panel.n, panel.t, completing, rows, &panel.consoles)
    } else {
        after_later(panel.n, k, completing, rows, verdicts, &panel.consoles)
    }
}
