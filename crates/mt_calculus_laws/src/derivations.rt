// The laws over derivations and stores: each function does nothing, and its clause is the law.
ghost use Rattle.mt_calculus_laws.specs.Laws.{ContextLaw, WeakeningLaw, SubstitutionLaw, OneTermLaw, GrowthLaw, StrictLaw, ScopeLaw, ExtensionLaw, RenumberingLaw, LiftLaw, ReplacementLaw, ExchangeLaw};
ghost use Rattle.mt_calculus_laws.specs.GrowthLaws.{NoOtherInstanceLaw, SoundStoreGrowthLaw, SoundInstancesGrowthLaw, ConversionGrowthLaw};
ghost use Rattle.mt_calculus_laws.specs.StoreLaws.{OneInstanceLaw, InstanceLaw, SoundInstancesLaw, DeclareLaw, AssignLaw, UnfoldLaw};

/// The context of a judgement is a context.
pub fn context_of_judgement()
    ensures law { ContextLaw }
{}

/// A judgement holds with a further hypothesis at any place.
pub fn weakening()
    ensures law { WeakeningLaw }
{}

/// A judgement holds under terms for the hypotheses of its context.
pub fn substitution()
    ensures law { SubstitutionLaw }
{}

/// A judgement holds with a term for its innermost hypothesis.
pub fn one_term()
    ensures law { OneTermLaw }
{}

/// A judgement holds over a larger environment.
pub fn growth_of_environment()
    ensures law { GrowthLaw }
{}

/// A strict judgement holds over any store, dropping allowed or not.
pub fn strict_implies_any()
    ensures law { StrictLaw }
{}

/// A strict judgement speaks of its context's variables alone, and of no metavariable.
pub fn scope_of_strict()
    ensures law { ScopeLaw }
{}

/// A judgement holds over a store that extends its own.
pub fn extension_of_store()
    ensures law { ExtensionLaw }
{}

/// A judgement holds with its metavariables under new numbers.
pub fn renumbering()
    ensures law { RenumberingLaw }
{}

/// Over a sound store each term has one instance.
pub fn one_instance()
    ensures law { OneInstanceLaw }
{}

/// A judgement over a sound store holds, as instance, over the instance of the store.
pub fn instance_of_judgement()
    ensures law { InstanceLaw }
{}

/// A sound store is sound by instances.
pub fn sound_by_instances()
    ensures law { SoundInstancesLaw }
{}

/// A new open metavariable keeps a store sound.
pub fn declaring()
    ensures law { DeclareLaw }
{}

/// An assignment keeps a store sound.
pub fn assigning()
    ensures law { AssignLaw }
{}

/// A judgement holds, lifted, with further hypotheses at any place.
pub fn lifting()
    ensures law { LiftLaw }
{}

/// A judgement holds with a term for a hypothesis at any place.
pub fn replacement()
    ensures law { ReplacementLaw }
{}

/// A judgement holds with its open metavariables exchanged for numbers or terms.
pub fn exchange()
    ensures law { ExchangeLaw }
{}

/// A judgement over a sound store holds where the assigned metavariables outside a closed set are
/// unfolded.
pub fn unfold_outside()
    ensures law { UnfoldLaw }
{}

/// Over any store a term has at most one instance.
pub fn no_other_instance()
    ensures law { NoOtherInstanceLaw }
{}

/// A sound store stays sound in a larger environment.
pub fn growth_of_sound_store()
    ensures law { SoundStoreGrowthLaw }
{}

/// A store that is sound by instances stays so in a larger environment.
pub fn growth_of_sound_instances()
    ensures law { SoundInstancesGrowthLaw }
{}

/// Conversion and the order of types hold with more assigned metavariables.
pub fn growth_of_conversion()
    ensures law { ConversionGrowthLaw }
{}
