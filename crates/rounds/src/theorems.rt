// The laws of accepted calls and of rounds, each owed by the contract of a function that does nothing.
ghost use Rattle.rounds.specs.Laws.{Checks, Rounds};

pub fn laws_of_checks()
    ensures { Checks }
{}

pub fn laws_of_rounds()
    ensures { Rounds }
{}
