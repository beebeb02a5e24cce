// The values of universe expressions: each function does nothing, and its clause is the law.
ghost use Rattle.mt_term.specs.UniverseLaws.{NormalValueLaw, NormalKeptLaw, MaximumValueLaw, RaisedValueLaw};

/// The normal form of an expression is normal, and has its values.
pub fn values_of_normal_form()
    ensures law { NormalValueLaw }
{}

/// A normal expression is its own normal form.
pub fn normal_form_of_normal()
    ensures law { NormalKeptLaw }
{}

/// The values of the maximum of two expressions are the greater ones.
pub fn values_of_maximum()
    ensures law { MaximumValueLaw }
{}

/// The values of a raised expression are one higher.
pub fn values_of_raised()
    ensures law { RaisedValueLaw }
{}
