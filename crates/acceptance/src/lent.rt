// A back end of somebody else's, as the interface allows it: it is changed in place, makes no second one, and is no value
// that may be let go.
ghost use Rattle.std.specs.Prelude.{[], map};
ghost use Rattle.rounds.specs.Refusals.{Answers};
ghost use Rattle.rounds.specs.Checks.{make_refusal};
ghost use Rattle.rig.specs.Calls.{asked};
ghost use Rattle.rig.specs.Shows.{first_day, Performed};

use back_end::BackEnd;
use console_sets::ConsoleSet;
use orders::Order;
use rig::{Call, Rig, whole_show};
use rounds::Refusal;

// Another back end, to which each call is handed on.
pub struct Lent<B: BackEnd> {
    inner: B,
}

impl<B: BackEnd> BackEnd for Lent<B> {
    const BOUND: u32 = B::BOUND;

    ghost BOUND = { B.BOUND };

    ghost serves = { B.serves };

    ghost meaning = { λ b. B.meaning b.inner };

    ghost agrees = { λ b. B.agrees b.inner };

    ghost settles = { λ b. B.settles b.inner };

    fn make(n: u8, t: u8) -> Result<Lent<B>, Refusal> {
        let inner = B::make(n, t)?;
        Ok(Lent { inner })
    }

    fn start(&mut self, running: ConsoleSet, entries: &[u8]) -> Result<(), Refusal> {
        self.inner.start(running, entries)
    }

    fn round(&mut self, falls: ConsoleSet, rows: &[ConsoleSet]) -> Result<(), Refusal> {
        self.inner.round(falls, rows)
    }

    fn verdict(&self, console: u8) -> Result<u8, Refusal> {
        self.inner.verdict(console)
    }

    fn steady(&self) -> u32 {
        self.inner.steady()
    }
}

// A whole show on such a back end. The statement over whole shows holds of it.
pub fn lent_show<B: BackEnd, P: Order>(
    number: u16,
    n: u8,
    t: u8,
    calls: &[Call<'_, P>],
    answers: &mut [Option<Refusal>],
) -> Result<Rig<Lent<B>>, Refusal>
    ensures { Answers result (make_refusal (B.serves n t) n t) (λ rig. Performed B.BOUND (record { number = number; n = n; t = t }) [] first_day (map (asked P.places) calls.now) rig.panel rig.book (B.meaning rig.back.inner) answers.old answers.new) }
{
    whole_show::<Lent<B>, P>(number, n, t, calls, answers)
}
