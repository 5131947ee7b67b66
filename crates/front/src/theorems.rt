// The front's own law, owed by the contract of a function that does nothing.
ghost use Rattle.front.specs.Laws.{Elimination};

// Two consoles that complete round t + 1 with new estimates that are present have the same one.
pub fn elimination()
    ensures { Elimination }
{}
