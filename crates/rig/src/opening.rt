// The panel and the book of a rig that is set up, and the panel after a press.
ghost use Rattle.std.specs.Prelude.{◌≡◌, ◌≤◌, length};
ghost use Rattle.console_sets.specs.Bound.{max_consoles};
ghost use Rattle.orders.specs.Ranks.{between};
ghost use Rattle.rig.specs.declared.panel.Book.{Book};
ghost use Rattle.rig.specs.Steps.{SetUp, Pressed};

use crate::page::{End, Page};
use crate::panel::{Book, MAX_PAGES, Panel};
use console_sets::{MAX_CONSOLES, all_of};
use front::{Console, opening_consoles};
use orders::{Order, ranks};

// The panel of a rig that is set up. That n is at most MAX_CONSOLES is asked, as in the front.
pub(crate) fn first_panel(number: u16, n: u8, t: u8) -> Panel
    requires { n ≤ max_consoles }
    ensures { (book : Book) → book.count ≡ 0 → SetUp number n t result book }
{
    Panel {
        number,
        n,
        t,
        running: all_of(n),
        press: 0,
        open: false,
        rounds: 0,
        ranks: [0; MAX_CONSOLES],
        consoles: opening_consoles(0),
    }
}

// A book without a page.
pub(crate) fn empty_book() -> Book
    ensures { result.count ≡ 0 }
{
    let blank = Page {
        press: 0,
        end: End::Dropped,
        rounds: 0,
        consoles: [Console::fresh(0); MAX_CONSOLES],
    };
    Book {
        pages: [blank; MAX_PAGES],
        count: 0,
    }
}

// The panel after a press with n proposals.
pub(crate) fn pressed<P: Order>(panel: &Panel, book: &Book, proposals: &[P]) -> Panel
    requires { length proposals.now ≡ panel.now.n }
    ensures { Pressed panel.now book.now (between P.places proposals.now) result }
{
    Panel {
        number: panel.number,
        n: panel.n,
        t: panel.t,
        running: panel.running,
        press: book.count as u32 + 1,
        open: true,
        rounds: 0,
        ranks: ranks(proposals, panel.running),
        consoles: opening_consoles(panel.running),
    }
}
