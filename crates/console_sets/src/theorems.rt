// The laws of sets and of counts, each owed by the contract of a function that does nothing.
ghost use Rattle.console_sets.specs.Laws.{Membership, Counting};

pub fn laws_of_members()
    ensures { Membership }
{}

pub fn laws_of_counts()
    ensures { Counting }
{}
