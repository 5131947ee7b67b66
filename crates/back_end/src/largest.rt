// The largest of numbers of consoles or authors. A `for`: with `map` and `max` the proof did not close.
ghost use Rattle.std.specs.Prelude.{◌≡◌, ℕ, ◌<◌};
ghost use Rattle.console_sets.specs.Calls.{Computes};
ghost use Rattle.back_end.specs.Largest.{largest};

// The largest of the numbers that the closure gives at the indices below n, or 0 for none.
pub fn largest_of<M: Fn(u8) -> u32>(n: u8, measure: M) -> u32
    requires { (c : ℕ) → c < n → M.pre measure c }
    ensures { (f : ℕ → ℕ) → Computes n (M.post measure) f → result ≡ largest f n }
{
    let mut top: u32 = 0;
    for c in 0..n {
        top = top.max(measure(c));
    }
    top
}
