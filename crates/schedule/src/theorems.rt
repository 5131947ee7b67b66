// What holds of how fields are written and read, owed by the contract of a function that does nothing.
ghost use Rattle.schedule.specs.Texts.{FieldTexts};

pub fn one_text_for_each_value()
    ensures { FieldTexts }
{}
