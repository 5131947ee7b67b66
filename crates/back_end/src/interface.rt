// The interface of a back end.
ghost use Rattle.std.specs.Prelude.{◌≡◌, ℕ, ◌-◌, Bool, List, MatchResult, OnOk};
ghost use Rattle.rounds.specs.Items.{at};
ghost use Rattle.rounds.specs.Refusals.{Answers};
ghost use Rattle.rounds.specs.Checks.{make_refusal, console_refusal};
ghost use Rattle.back_end.specs.Meaning.{Meaning};
ghost use Rattle.back_end.specs.Calls.{start_answer, round_answer, Made, Started, Rounded};
ghost use Rattle.back_end.specs.Laws.{Agrees, Settles};

use console_sets::ConsoleSet;
use rounds::Refusal;

// A back end for n consoles of which at most t fall. A refusal and a question change nothing.
// A round's fall set and rows are two parameters, as the rules name them: of a struct with both, each clause would have to
// say `round.now.falls` and `round.now.rows.now`.
pub trait BackEnd: Sized {
    // With more steady rounds than this, one after the other, every running console has a verdict.
    const BOUND: u32;

    ghost BOUND: { ℕ };

    // The pairs n, t that it is made for.
    ghost serves: { ℕ → ℕ → Bool };

    ghost meaning: { Self → Meaning };

    // What a start leaves, and what a round makes of a back end, by a rule of its own, beyond what every meaning has.
    // A back end that says no more than the interface leaves them out.
    ghost Begins: { Self → Type 0 } = { λ _. Unit {0} };

    ghost GoesOn: { ℕ → List ℕ → Self → Self → Type 0 } = { λ _ _ _ _. Unit {0} };

    // A back end that was not started yet: 1, 2, 3.
    fn make(n: u8, t: u8) -> Result<Self, Refusal>
        ensures { Answers result (make_refusal (serves n t) n t) (λ b. Made n t (meaning b)) };

    // Begins anew, with one entry for each console, of which those of the running set count: 9, 10, 11, 12. It and `round` have
    // no body here: that would bind every back end to make a second one beside itself, and to be one that may be let go.
    fn start(&mut self, running: ConsoleSet, entries: &[u8]) -> Result<(), Refusal>
        ensures answers { result ≡ start_answer (meaning self.old) running entries.now }
        ensures leaves { MatchResult result (λ _. Started running entries.now (meaning self.old) (meaning self.new)) (λ _. self.new ≡ self.old) }
        ensures begins { OnOk result (Begins self.new) };

    // One round, with a fall set and one row for each console: 8, 9, 10, 11, 12, 13.
    fn round(&mut self, falls: ConsoleSet, rows: &[ConsoleSet]) -> Result<(), Refusal>
        ensures answers { result ≡ round_answer (meaning self.old) falls rows.now }
        ensures leaves { MatchResult result (λ _. Rounded falls rows.now (meaning self.old) (meaning self.new)) (λ _. self.new ≡ self.old) }
        ensures goes_on { OnOk result (GoesOn falls rows.now self.old self.new) };

    // The verdict of a console, given by its number, 0 for none: 14. It and the steady count have no body here: that would bind
    // every back end to keep a `Progress`.
    fn verdict(&self, console: u8) -> Result<u8, Refusal>
        ensures { Answers result (console_refusal (meaning self.now).n console) (λ v. v ≡ at (meaning self.now).verdicts (console - 1)) };

    // How many of the last rounds, one after the other, were steady.
    fn steady(&self) -> u32
        ensures { result ≡ (meaning self.now).steady };

    ghost agrees: { (b : Self) → Agrees (meaning b) };

    ghost settles: { (b : Self) → Settles BOUND (meaning b) };
}
