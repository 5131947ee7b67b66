// Whole shows: calls performed one after another.
ghost use Rattle.std.specs.Prelude.{◌≡◌, ◌<◌, ◌≤◌, List, [], map, length, set, OnErr, slice_set};
ghost use Rattle.rounds.specs.Refusals.{Answers};
ghost use Rattle.rounds.specs.Checks.{make_refusal};
ghost use Rattle.rig.specs.Calls.{asked};
ghost use Rattle.rig.specs.Shows.{Setting, Answered, Show, first_day, Led, Stands, Performed};

use crate::calls::Call;
use crate::rig::Rig;
use back_end::BackEnd;
use orders::Order;
use rounds::Refusal;

impl<B: BackEnd> Rig<B> {
    // Performs the calls one after another, and writes down the refusal of each, as far as there is room.
    // The contract is the statement over whole shows: whatever string of calls led from a set up to this rig, the longer
    // string leads to a history, the rig is that of the history, and every press of it is lawful.
    pub fn perform<P: Order>(&mut self, calls: &[Call<'_, P>], answers: &mut [Option<Refusal>])
        ensures { (s : Setting) (cs : List Answered) (show : Show)
            → Led B.BOUND s cs show (B.meaning self.old.back) → Stands s show self.old.panel self.old.book
            → Performed B.BOUND s cs show (map (asked P.places) calls.now) self.new.panel self.new.book (B.meaning self.new.back) answers.old answers.new }
    {
        // Not a zip with the answers: a call beyond their room is performed too.
        for (i, call) in calls.iter().enumerate() {
            let answer = self.step(call);
            write_down(answers, i, answer);
        }
    }
}

// A whole show: a set up, and then the calls.
pub fn whole_show<B: BackEnd, P: Order>(
    number: u16,
    n: u8,
    t: u8,
    calls: &[Call<'_, P>],
    answers: &mut [Option<Refusal>],
) -> Result<Rig<B>, Refusal>
    ensures performed { Answers result (make_refusal (B.serves n t) n t) (λ rig. Performed B.BOUND (record { number = number; n = n; t = t }) [] first_day (map (asked P.places) calls.now) rig.panel rig.book (B.meaning rig.back) answers.old answers.new) }
    ensures kept { OnErr result (answers.new ≡ answers.old) }
{
    let mut rig = Rig::<B>::set_up(number, n, t)?;
    rig.perform(calls, answers);
    Ok(rig)
}

// Writes an answer down, if there is room for it.
fn write_down(answers: &mut [Option<Refusal>], i: usize, answer: Option<Refusal>)
    ensures there { i < length answers.old → answers.new ≡ slice_set answers.old i answer }
    ensures past { length answers.old ≤ i → answers.new ≡ answers.old }
{
    if i < answers.len() {
        answers[i] = answer;
    }
}
