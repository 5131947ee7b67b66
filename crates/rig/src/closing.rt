// Whether a ticket fits, how a press ends, and its page in the book.
ghost use Rattle.std.specs.Prelude.{◌≡◌, ◌+◌, ◌<◌, true, slice_set, OnOk};
ghost use Rattle.rounds.specs.Refusals.{answer};
ghost use Rattle.rig.specs.Bound.{max_pages};
ghost use Rattle.rig.specs.Steps.{fits, close_refusal, end_now, page_now};

use crate::later::all_decided;
use crate::page::{End, Page};
use crate::panel::{Book, MAX_PAGES, Panel};
use rounds::Refusal;

// Whether a ticket's numbers are those of the open press.
fn fits(panel: &Panel, rig: u16, press: u32) -> bool
    ensures { result ≡ fits panel.now rig press }
{
    panel.open & (rig == panel.number) & (press == panel.press)
}

// Refuses a ticket whose numbers are not those of the open press: 7.
pub(crate) fn check_ticket(panel: &Panel, rig: u16, press: u32) -> Result<(), Refusal>
    ensures answers { result ≡ answer (close_refusal panel.now rig press) }
    ensures fits { OnOk result (fits panel.now rig press ≡ true) }
{
    if fits(panel, rig, press) {
        Ok(())
    } else {
        Err(Refusal::WrongTicket)
    }
}

// The end of the panel's press: settled if every running console has a decision.
fn end_of(panel: &Panel) -> End
    ensures { result ≡ end_now panel.now }
{
    if all_decided(panel.n, panel.running, &panel.consoles) {
        End::Settled
    } else {
        End::Dropped
    }
}

// The page of the panel's press.
pub(crate) fn page_of(panel: &Panel) -> Page
    ensures { result ≡ page_now panel.now }
{
    Page {
        press: panel.press,
        end: end_of(panel),
        rounds: panel.rounds,
        consoles: panel.consoles,
    }
}

// Adds a page, if there is room for it.
pub(crate) fn add(book: &mut Book, page: Page)
    ensures count { book.old.count < max_pages → book.new.count ≡ book.old.count + 1 }
    ensures pages { book.old.count < max_pages → book.new.pages ≡ slice_set book.old.pages book.old.count page }
    ensures full { max_pages ≡ book.old.count → book.new ≡ book.old }
{
    if book.count < MAX_PAGES {
        book.pages[book.count] = page;
        book.count += 1;
    }
}
