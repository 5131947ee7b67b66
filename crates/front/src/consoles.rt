// What a console has in a press, and what all have when a press opens.
ghost use Rattle.std.specs.Prelude.{◌≡◌, ℕ};
ghost use Rattle.front.specs.Consoles.{word_of, fresh, state_of, opened};

use console_sets::{ConsoleSet, MAX_CONSOLES, array_of, has};
use rounds::item_or;

// What gave a console its decision.
#[derive(Clone, Copy, PartialEq, Eq, Debug)]
pub enum Cause {
    // There is no decision.
    None,
    // Round t + 2.
    Front,
    // The decision of a console that was heard.
    Relay,
    // A verdict of the back end.
    Back,
}

impl Cause {
    // Its word on a sheet. Not `Display`: of what `write!` prints std says the bytes only where it goes into a `String`.
    pub fn word(self) -> &'static str
        ensures { result.now ≡ word_of self }
    {
        match self {
            Cause::None => "none",
            Cause::Front => "front",
            Cause::Relay => "relay",
            Cause::Back => "back",
        }
    }
}

// What a console has in a press. An author is a console's number, 0 for none.
// Numbers and no `Option`: by the rules 0 means none in every state, entry and page, and so the definitions say it.
#[derive(Clone, Copy, PartialEq, Eq, Debug)]
pub struct Console {
    // The author that it would decide on.
    pub estimate: u8,
    // The halt set: whose estimates it leaves aside.
    pub halt: ConsoleSet,
    // The author that it has decided on.
    pub decision: u8,
    // The round of the decision, 0 without one.
    pub round: u32,
    // What gave the decision.
    pub cause: Cause,
}

impl Console {
    // A console that has nothing yet but an estimate.
    pub fn fresh(estimate: u8) -> Console
        ensures { result ≡ fresh estimate }
    {
        Console {
            estimate,
            halt: 0,
            decision: 0,
            round: 0,
            cause: Cause::None,
        }
    }
}

// What the console of index c has. Beyond MAX_CONSOLES none has anything.
pub fn console_at(consoles: &[Console; MAX_CONSOLES], c: u8) -> Console
    ensures { result ≡ state_of consoles.now c }
{
    item_or(consoles, c, Console::fresh(0))
}

// What each console has when a press opens.
pub fn opening_consoles(running: ConsoleSet) -> [Console; MAX_CONSOLES]
    ensures { (c : ℕ) → state_of result c ≡ opened running c }
{
    array_of(|c| Console::fresh(if has(running, c) { c + 1 } else { 0 }))
}
