// A rig and its calls.
ghost use Rattle.std.specs.Prelude.{◌≡◌, ◌+◌, ◌-◌, length, Some, None, MatchResult};
ghost use Rattle.orders.specs.Ranks.{between};
ghost use Rattle.rounds.specs.Refusals.{answer, Answers};
ghost use Rattle.rounds.specs.Checks.{make_refusal};
ghost use Rattle.back_end.specs.Calls.{Made};
ghost use Rattle.rig.specs.Calls.{asked, PressLeaves, RoundLeaves, CloseLeaves, DoneBy};
ghost use Rattle.rig.specs.Steps.{SetUp, press_refusal, turn_refusal, close_refusal, end_now};

use crate::advancing::advanced;
use crate::back::hand_on;
use crate::calls::{Call, Ticket};
use crate::closing::{add, check_ticket, page_of};
use crate::opening::{empty_book, first_panel, pressed};
use crate::page::End;
use crate::panel::{Book, MAX_PAGES, Panel};
use back_end::BackEnd;
use console_sets::ConsoleSet;
use orders::Order;
use rounds::{Refusal, check_round};

// One group of consoles with its whole history.
#[derive(Drop)]
pub struct Rig<B: BackEnd> {
    pub(crate) panel: Panel,
    pub(crate) book: Book,
    pub(crate) back: B,
}

impl<B: BackEnd> Rig<B> {
    // A rig of n consoles of which t may fall, with a back end made for them: 1, 2, 3.
    pub fn set_up(number: u16, n: u8, t: u8) -> Result<Rig<B>, Refusal>
        ensures { Answers result (make_refusal (B.serves n t) n t) (λ rig. SetUp number n t rig.panel rig.book × Made n t (B.meaning rig.back)) }
    {
        let back = B::make(n, t)?;
        Ok(Rig {
            panel: first_panel(number, n, t),
            book: empty_book(),
            back,
        })
    }

    // Opens a press with the proposals of consoles 1 to n, and gives its ticket: 4, 5, 6.
    pub fn press<P: Order>(&mut self, proposals: &[P]) -> Result<Ticket, Refusal>
        ensures answers { Answers result (press_refusal self.old.panel self.old.book (length proposals.now)) (λ ticket. (ticket.rig ≡ self.old.panel.number) × (ticket.press ≡ self.old.book.count + 1)) }
        ensures leaves { MatchResult result (λ _. PressLeaves (between P.places proposals.now) self.old self.new) (λ _. self.new ≡ self.old) }
    {
        if self.panel.open {
            return Err(Refusal::PressOpen);
        }
        if self.book.count >= MAX_PAGES {
            return Err(Refusal::BookFull);
        }
        if proposals.len() != self.panel.n as usize {
            return Err(Refusal::ProposalCount);
        }
        self.panel = pressed(&self.panel, &self.book, proposals);
        Ok(Ticket {
            rig: self.panel.number,
            press: self.panel.press,
        })
    }

    // One round of the open press, with a fall set and one row for each console: 7 to 13. The ticket stays with its holder.
    pub fn round(
        &mut self,
        ticket: &Ticket,
        falls: ConsoleSet,
        rows: &[ConsoleSet],
    ) -> Result<(), Refusal>
        ensures answers { result ≡ answer (turn_refusal self.old.panel (B.meaning self.old.back) ticket.now.rig ticket.now.press falls rows.now) }
        ensures leaves { MatchResult result (λ _. RoundLeaves B.meaning falls rows.now self.old self.new) (λ _. self.new ≡ self.old) }
    {
        self.advance(ticket.rig, ticket.press, falls, rows)
    }

    // A round that is shown a ticket's numbers.
    fn advance(
        &mut self,
        rig: u16,
        press: u32,
        falls: ConsoleSet,
        rows: &[ConsoleSet],
    ) -> Result<(), Refusal>
        ensures answers { result ≡ answer (turn_refusal self.old.panel (B.meaning self.old.back) rig press falls rows.now) }
        ensures leaves { MatchResult result (λ _. RoundLeaves B.meaning falls rows.now self.old self.new) (λ _. self.new ≡ self.old) }
    {
        check_ticket(&self.panel, rig, press)?;
        check_round(
            self.panel.n,
            self.panel.t,
            self.panel.running,
            self.panel.rounds,
            falls,
            rows,
        )?;
        let verdicts = hand_on(&self.panel, &mut self.back, falls, rows)?;
        self.panel = advanced(&self.panel, falls, rows, &verdicts);
        Ok(())
    }

    // Ends the open press and tells how: 7. A refused close hands the ticket back.
    pub fn close(&mut self, ticket: Ticket) -> Result<End, (Refusal, Ticket)>
        ensures answers { MatchResult result (λ end. (close_refusal self.old.panel ticket.rig ticket.press ≡ None) × (end ≡ end_now self.old.panel)) (λ refused. (close_refusal self.old.panel ticket.rig ticket.press ≡ Some refused.0) × (refused.1 ≡ ticket)) }
        ensures leaves { MatchResult result (λ _. CloseLeaves self.old self.new) (λ _. self.new ≡ self.old) }
    {
        match self.shut(ticket.rig, ticket.press) {
            Ok(end) => {
                let Ticket { rig: _, press: _ } = ticket;
                Ok(end)
            }
            // The ticket goes back, so that `?` would not do.
            Err(refusal) => Err((refusal, ticket)),
        }
    }

    // A close that is shown a ticket's numbers.
    fn shut(&mut self, rig: u16, press: u32) -> Result<End, Refusal>
        ensures answers { Answers result (close_refusal self.old.panel rig press) (λ end. end ≡ end_now self.old.panel) }
        ensures leaves { MatchResult result (λ _. CloseLeaves self.old self.new) (λ _. self.new ≡ self.old) }
    {
        check_ticket(&self.panel, rig, press)?;
        let page = page_of(&self.panel);
        add(&mut self.book, page);
        self.panel.open = false;
        Ok(page.end)
    }

    // Performs one call and answers its refusal.
    pub(crate) fn step<P: Order>(&mut self, call: &Call<'_, P>) -> Option<Refusal>
        ensures { DoneBy B.meaning (asked P.places call.now) result self.old self.new }
    {
        match *call {
            // Not `err()`: it would let the ticket go.
            Call::Press(proposals) => match self.press(proposals) {
                Ok(ticket) => {
                    let Ticket { rig: _, press: _ } = ticket;
                    None
                }
                Err(refusal) => Some(refusal),
            },
            Call::Round {
                rig,
                press,
                falls,
                rows,
            } => self.advance(rig, press, falls, rows).err(),
            Call::Close { rig, press } => self.shut(rig, press).err(),
        }
    }
}
