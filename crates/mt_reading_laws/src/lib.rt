//! The law of reading back: a function that does nothing, and its clause is the law.
#![tactic(auto)]

ghost use Rattle.mt_reading_laws.specs.ReadingBack.{ReadingBack};

/// What is printed for a closed term is read back as that term, but for the names of its binders.
pub fn reading_back()
    ensures law { ReadingBack }
{}
