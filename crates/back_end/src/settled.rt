// What follows of every back end from the interface alone.
ghost use Rattle.std.specs.Prelude.{◌≡◌, true, nat_lt};
ghost use Rattle.back_end.specs.Laws.{Decided};

use crate::interface::BackEnd;

// Whether the steady count is above the bound. Then each running console has a verdict.
pub fn is_settled<B: BackEnd>(b: &B) -> bool
    ensures answers { result ≡ nat_lt B.BOUND (B.meaning b.now).steady }
    ensures decided { result ≡ true → Decided (B.meaning b.now) }
{
    B::BOUND < b.steady()
}
