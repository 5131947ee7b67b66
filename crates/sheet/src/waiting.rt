// How long a console waits for its decision.
ghost use Rattle.std.specs.Prelude.{◌≡◌};
ghost use Rattle.sheet.specs.Wait.{wait, Nearest};

// The milliseconds from the press to the end of a round, by the length of a round in microseconds. A half goes up.
pub fn wait(round: u32, round_length: u32) -> u64
    ensures is { result ≡ wait round round_length }
    ensures nearest { Nearest round round_length result }
{
    (round as u64 * round_length as u64 + 500) / 1000
}
