// Why a schedule is refused by whoever reads it.
ghost use Rattle.std.specs.Prelude.{◌≡◌};
ghost use Rattle.schedule.specs.Refusals.{number_of, line_of, place_of};

#[derive(Clone, Copy, PartialEq, Eq, Debug)]
pub enum FileRefusal {
    // A line too long, or without its line feed; line 0: the schedule is too long.
    LineLength { line: u32 },
    // The first word is none of the four.
    UnknownWord { line: u32 },
    // Not as many fields as the kind of line has.
    FieldCount { line: u32 },
    // A field that does not say what it should; the word's place is 1.
    BadField { line: u32, place: u32 },
    // A line of a kind that cannot stand there.
    Misplaced { line: u32 },
}

impl FileRefusal {
    pub fn number(self) -> u8
        ensures { result ≡ number_of self }
    {
        match self {
            FileRefusal::LineLength { .. } => 15,
            FileRefusal::UnknownWord { .. }
            | FileRefusal::FieldCount { .. }
            | FileRefusal::BadField { .. } => 16,
            FileRefusal::Misplaced { .. } => 17,
        }
    }

    pub fn line(self) -> u32
        ensures { result ≡ line_of self }
    {
        match self {
            FileRefusal::LineLength { line }
            | FileRefusal::UnknownWord { line }
            | FileRefusal::FieldCount { line }
            | FileRefusal::BadField { line, .. }
            | FileRefusal::Misplaced { line } => line,
        }
    }

    pub fn place(self) -> u32
        ensures { result ≡ place_of self }
    {
        match self {
            FileRefusal::UnknownWord { .. } => 1,
            FileRefusal::BadField { place, .. } => place,
            FileRefusal::LineLength { .. }
            | FileRefusal::FieldCount { .. }
            | FileRefusal::Misplaced { .. } => 0,
        }
    }
}
