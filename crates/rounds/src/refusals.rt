// Why a call is refused, and by which layer.
ghost use Rattle.std.specs.Prelude.{◌≡◌, ◌≤◌, length};
ghost use Rattle.rounds.specs.Refusals.{layer_word, number_of, layer_of, place_of};

// The part of the engine that refuses.
#[derive(Clone, Copy, PartialEq, Eq, Debug)]
pub enum Layer {
    // The text of a schedule, or room for the text of a sheet.
    File,
    // The call itself.
    Rig,
    // The kind of back end.
    Back,
}

impl Layer {
    // Its word on a sheet. Not `Display`: of what `write!` prints std says the bytes only where it goes into a `String`.
    pub fn word(self) -> &'static str
        ensures holds { result.now ≡ layer_word self }
        ensures short { length result.now ≤ 4 }
    {
        match self {
            Layer::File => "file",
            Layer::Rig => "rig",
            Layer::Back => "back",
        }
    }
}

// Why a call of a rig or of a back end is refused, in the order of the numbers.
#[derive(Clone, Copy, PartialEq, Eq, Debug)]
pub enum Refusal {
    // n is not MIN_CONSOLES to MAX_CONSOLES.
    Consoles,
    // t is 0, or 2t is at least n.
    Tolerance,
    // The back end does not serve n and t.
    NotServed,
    // A press is open.
    PressOpen,
    // The book has no room for a page.
    BookFull,
    // There are not n proposals.
    ProposalCount,
    // No press is open, or the ticket is not that of the open press.
    WrongTicket,
    // MAX_ROUNDS rounds are done.
    RoundLimit,
    // There are not n rows; at a start, not n entries.
    ItemCount,
    // The fall set names a console that does not run; at a start, the running set names a number above n.
    OutsideMember,
    // Fewer than n - t consoles would complete the round; at a start, fewer run.
    TooFewRunning,
    // A console's row is not one that it can have; at a start, a running console's entry is not 1 to n.
    BadItem { console: u8 },
    // A completing console's row has fewer than n - t members.
    ShortRow { console: u8 },
    // There is no such page, or no such console.
    NoSuch,
}

impl Refusal {
    // Its number, 1 to 14.
    pub fn number(self) -> u8
        ensures { result ≡ number_of self }
    {
        match self {
            Refusal::Consoles => 1,
            Refusal::Tolerance => 2,
            Refusal::NotServed => 3,
            Refusal::PressOpen => 4,
            Refusal::BookFull => 5,
            Refusal::ProposalCount => 6,
            Refusal::WrongTicket => 7,
            Refusal::RoundLimit => 8,
            Refusal::ItemCount => 9,
            Refusal::OutsideMember => 10,
            Refusal::TooFewRunning => 11,
            Refusal::BadItem { .. } => 12,
            Refusal::ShortRow { .. } => 13,
            Refusal::NoSuch => 14,
        }
    }

    // The layer that refuses.
    pub fn layer(self) -> Layer
        ensures { result ≡ layer_of self }
    {
        match self {
            Refusal::NotServed => Layer::Back,
            _ => Layer::Rig,
        }
    }

    // The number of the console that it names, or 0.
    pub fn place(self) -> u8
        ensures { result ≡ place_of self }
    {
        match self {
            Refusal::BadItem { console } | Refusal::ShortRow { console } => console,
            _ => 0,
        }
    }
}
