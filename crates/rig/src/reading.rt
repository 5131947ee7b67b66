// What can be read of a rig at any time. Reading changes nothing.
ghost use Rattle.std.specs.Prelude.{◌≡◌, ◌-◌};
ghost use Rattle.rounds.specs.Checks.{console_refusal};
ghost use Rattle.rounds.specs.Refusals.{either, Answers};
ghost use Rattle.front.specs.Consoles.{state_of};
ghost use Rattle.rig.specs.Later.{all_decided};
ghost use Rattle.rig.specs.Steps.{close_refusal};
ghost use Rattle.rig.specs.Calls.{page_refusal, page_at};

use crate::calls::Ticket;
use crate::closing::check_ticket;
use crate::later::all_decided;
use crate::page::Page;
use crate::rig::Rig;
use back_end::BackEnd;
use front::Console;
use rounds::{Refusal, check_console};

impl<B: BackEnd> Rig<B> {
    // Whether every running console has a decision in the open press: 7.
    pub fn settled(&self, ticket: &Ticket) -> Result<bool, Refusal>
        ensures { Answers result (close_refusal self.now.panel ticket.now.rig ticket.now.press) (λ settled. settled ≡ all_decided self.now.panel.n self.now.panel.running (state_of self.now.panel.consoles)) }
    {
        check_ticket(&self.panel, ticket.rig, ticket.press)?;
        Ok(all_decided(self.panel.n, self.panel.running, &self.panel.consoles))
    }

    // What a console has, given by its number: 14.
    pub fn console(&self, number: u8) -> Result<Console, Refusal>
        ensures { Answers result (console_refusal self.now.panel.n number) (λ console. console ≡ state_of self.now.panel.consoles (number - 1)) }
    {
        check_console(self.panel.n, number)?;
        Ok(self.panel.consoles[number as usize - 1])
    }

    // The page of a closed press, given by its number: 14.
    pub fn page(&self, number: u32) -> Result<&Page, Refusal>
        ensures { Answers result (page_refusal self.now.book number) (λ page. page.now ≡ page_at self.now.book number) }
    {
        if (number == 0) | (self.book.count < number as usize) {
            return Err(Refusal::NoSuch);
        }
        Ok(&self.book.pages[number as usize - 1])
    }

    // What a console has on a page: 14.
    pub fn page_console(&self, page: u32, number: u8) -> Result<Console, Refusal>
        ensures { Answers result (either (page_refusal self.now.book page) (console_refusal self.now.panel.n number)) (λ console. console ≡ state_of (page_at self.now.book page).consoles (number - 1)) }
    {
        let page = self.page(page)?;
        check_console(self.panel.n, number)?;
        Ok(page.consoles[number as usize - 1])
    }
}
