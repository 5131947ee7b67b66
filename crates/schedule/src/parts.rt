// Bytes cut at a separator.
ghost use Rattle.std.specs.Prelude.{◌≡◌, length};
ghost use Rattle.schedule.specs.Parts.{before, onward};

// How many bytes stand before the first `stop`, all where there is none.
fn reach(bytes: &[u8], stop: u8) -> usize
    ensures { result ≡ length (before stop bytes.now) }
{
    bytes.iter().position(|b| *b == stop).unwrap_or(bytes.len())
}

// The bytes before the first `stop`, all where there is none, and the bytes from it on.
#[tactic(auto, using(crate::proofs::Parted::length_before, crate::proofs::Parted::take_before, crate::proofs::Parted::drop_before))]
pub(crate) fn cut(bytes: &[u8], stop: u8) -> (&[u8], &[u8])
    ensures front { result.0.now ≡ before stop bytes.now }
    ensures rest { result.1.now ≡ onward stop bytes.now }
{
    bytes.split_at(reach(bytes, stop))
}
