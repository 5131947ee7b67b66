// What a round asks of the back end, and the verdicts that it then answers.
ghost use Rattle.std.specs.Prelude.{◌≡◌, ℕ, ◌<◌, if◌then◌else◌, MatchResult, nat_lt};
ghost use Rattle.console_sets.specs.Bound.{max_consoles};
ghost use Rattle.rounds.specs.Items.{at};
ghost use Rattle.rounds.specs.Rounds.{completing};
ghost use Rattle.rounds.specs.Refusals.{Answers};
ghost use Rattle.back_end.specs.Calls.{start_answer, Started};
ghost use Rattle.rig.specs.Steps.{entry_list, back_refusal, told, Handed};

use crate::panel::Panel;
use back_end::BackEnd;
use console_sets::{ConsoleSet, MAX_CONSOLES, array_of, difference};
use front::entries;
use rounds::Refusal;

// Asks nothing before round t + 2, then to start, then the same round. Answers each console's verdict, 0 up to round t + 2.
pub(crate) fn hand_on<B: BackEnd>(
    panel: &Panel,
    back: &mut B,
    falls: ConsoleSet,
    rows: &[ConsoleSet],
) -> Result<[u8; MAX_CONSOLES], Refusal>
    ensures answers { Answers result (back_refusal panel.now falls rows.now (B.meaning back.old)) (λ verdicts. (c : ℕ) → c < max_consoles → at verdicts c ≡ told panel.now (B.meaning back.new) c) }
    ensures leaves { MatchResult result (λ _. Handed panel.now falls rows.now (B.meaning back.old) (B.meaning back.new)) (λ _. back.new ≡ back.old) }
{
    let last = panel.t as u32 + 1;
    if panel.rounds < last {
        return Ok([0; MAX_CONSOLES]);
    }
    if panel.rounds == last {
        start(panel, back, falls, rows)?;
        return Ok([0; MAX_CONSOLES]);
    }
    back.round(falls, rows)?;
    Ok(all_verdicts(back))
}

// Starts the back end with those that complete round t + 2 and their entries.
fn start<B: BackEnd>(
    panel: &Panel,
    back: &mut B,
    falls: ConsoleSet,
    rows: &[ConsoleSet],
) -> Result<(), Refusal>
    ensures answers { result ≡ start_answer (B.meaning back.old) (completing panel.now.running falls) (entry_list panel.now falls rows.now) }
    ensures leaves { MatchResult result (λ _. Started (completing panel.now.running falls) (entry_list panel.now falls rows.now) (B.meaning back.old) (B.meaning back.new)) (λ _. back.new ≡ back.old) }
{
    let running = difference(panel.running, falls);
    let all = entries(panel.n, panel.t, running, rows, &panel.consoles);
    back.start(running, &all[..panel.n as usize])
}

// The verdict of each console that the back end knows, and 0 for the others.
fn all_verdicts<B: BackEnd>(back: &B) -> [u8; MAX_CONSOLES]
    ensures { (c : ℕ) → c < max_consoles → at result c ≡ (if nat_lt c (B.meaning back.now).n then at (B.meaning back.now).verdicts c else 0) }
{
    array_of(|c| verdict_at(back, c))
}

// The verdict of the console of index c, 0 if the back end knows no such console.
fn verdict_at<B: BackEnd>(back: &B, c: u8) -> u8
    requires { c < max_consoles }
    ensures { result ≡ (if nat_lt c (B.meaning back.now).n then at (B.meaning back.now).verdicts c else 0) }
{
    back.verdict(c + 1).unwrap_or(0)
}
