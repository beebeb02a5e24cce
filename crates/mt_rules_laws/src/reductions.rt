// The laws of weak heads, comparison and inference: each function does nothing, and its clause is
// the law.
ghost use Rattle.mt_rules_laws.specs.AllowanceLaws.{AllowanceLaw};
ghost use Rattle.mt_rules_laws.specs.RuleTables.{WeakHeadByTable, NormalFormByTable, ComparisonByTable, InferenceByTable};
ghost use Rattle.mt_rules_laws.specs.ReductionLaws.{WeakHeadLaw, StepLaw, NormalFormLaw, ComparisonLaw, InferenceLaw, StrictInferenceLaw, TypeCheckLaw, CheckLaw};

/// The weak head of a term is reached from it by contractions.
pub fn weak_head_by_contractions()
    ensures law { WeakHeadLaw }
{}

/// What a step makes of a term is reached from it by contractions.
pub fn step_by_contractions()
    ensures law { StepLaw }
{}

/// The normal form of a term is reached from it by contractions.
pub fn normal_form_by_contractions()
    ensures law { NormalFormLaw }
{}

/// A yes of the comparison gives conversion, or the order of types.
pub fn comparison_gives_conversion()
    ensures law { ComparisonLaw }
{}

/// The inferred type is a type of the term.
pub fn inference_gives_type()
    ensures law { InferenceLaw }
{}

/// The inferred type is one by a strict derivation, where no metavariable is mentioned.
pub fn inference_gives_strict_type()
    ensures law { StrictInferenceLaw }
{}

/// The kernel's check of a type gives a strict derivation.
pub fn type_check_gives_sort()
    ensures law { TypeCheckLaw }
{}

/// The kernel's check of a term gives strict derivations.
pub fn check_gives_type()
    ensures law { CheckLaw }
{}

/// What is not spent at an allowance is the same at a greater one, with as much more left; and
/// never more is left than was given.
pub fn going_by_allowance()
    ensures law { AllowanceLaw }
{}

/// The weak head and a step are what their table says, case by case.
pub fn weak_head_by_table()
    ensures law { WeakHeadByTable }
{}

/// The normal form is what its table says, case by case.
pub fn normal_form_by_table()
    ensures law { NormalFormByTable }
{}

/// The comparison is what its table says, case by case.
pub fn comparison_by_table()
    ensures law { ComparisonByTable }
{}

/// The inferred type is what its table says, case by case.
pub fn inference_by_table()
    ensures law { InferenceByTable }
{}
