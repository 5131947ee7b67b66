// Why reading a schedule stops.
ghost use Rattle.std.specs.Prelude.{◌≡◌};
ghost use Rattle.holpsket.specs.declared.stop.Stop.TheVariants.{File};
ghost use Rattle.holpsket.specs.Stops.{number_of, layer_of, line_of, place_of};

use rounds::{Layer, Refusal};
use schedule::FileRefusal;

#[derive(Clone, Copy)]
pub enum Stop {
    // The schedule is not written as it should be.
    File(FileRefusal),
    // The line says what a rig refuses.
    Rig { refusal: Refusal, line: u32 },
}

impl From<FileRefusal> for Stop {
    ghost from_gives = { λ refusal stop. stop ≡ File refusal };

    fn from(refusal: FileRefusal) -> Stop {
        Stop::File(refusal)
    }
}

impl Stop {
    pub fn number(self) -> u8
        ensures { result ≡ number_of self }
    {
        match self {
            Stop::File(refusal) => refusal.number(),
            Stop::Rig { refusal, .. } => refusal.number(),
        }
    }

    pub fn layer(self) -> Layer
        ensures { result ≡ layer_of self }
    {
        match self {
            Stop::File(_) => Layer::File,
            Stop::Rig { refusal, .. } => refusal.layer(),
        }
    }

    pub fn line(self) -> u32
        ensures { result ≡ line_of self }
    {
        match self {
            Stop::File(refusal) => refusal.line(),
            Stop::Rig { line, .. } => line,
        }
    }

    pub fn place(self) -> u32
        ensures { result ≡ place_of self }
    {
        match self {
            Stop::File(refusal) => refusal.place(),
            Stop::Rig { refusal, .. } => refusal.place() as u32,
        }
    }
}
