// Lifting, substitution and comparison of terms; and the laws over terms can be called.
use mt_calculus_laws::derivations;
use mt_rules_laws::reductions;
use mt_term::{
    Atoms, Name, Sort, Term, Terms, UnivExpr, alike, fill, lift, substitute, under, universe_laws,
};
use std::alloc::{AllocError, Global};
use std::test::Fail;

fn app(alloc: Global, function: Term, argument: Term) -> Result<Term, AllocError> {
    Ok(Term::App(Box::new(alloc, function)?, Box::new(alloc, argument)?))
}

fn lam(alloc: Global, bytes: &[u8], body: Term) -> Result<Term, AllocError> {
    let name = Name::from_bytes(alloc, bytes)?;
    Ok(Term::Lam(
        name,
        Box::new(alloc, Term::Sort(Sort::Prop))?,
        Box::new(alloc, body)?,
    ))
}

// The list of `Prop` and `Type[0]`.
fn two_sorts(alloc: Global) -> Result<Terms, AllocError> {
    let newest = Box::new(alloc, first_type(alloc))?;
    let rest = Terms::Item(newest, Box::new(alloc, Terms::End)?);
    Ok(Terms::Item(
        Box::new(alloc, Term::Sort(Sort::Prop))?,
        Box::new(alloc, rest)?,
    ))
}

fn first_type(alloc: Global) -> Term {
    Term::Sort(Sort::Typ(UnivExpr {
        base: 0,
        atoms: Atoms::new(alloc),
    }))
}

#[test]
fn lifting_raises_free_variables(rt: HostRuntime) -> Result<(), Fail> {
    let alloc = rt.alloc();
    assert!(rt; matches!(&lift(alloc, &Term::Var(0), 2, 0)?, Term::Var(2)));
    assert!(rt; matches!(&lift(alloc, &Term::Var(0), 2, 1)?, Term::Var(0)));
    Ok(())
}

#[test]
fn a_term_is_put_for_a_variable(rt: HostRuntime) -> Result<(), Fail> {
    let alloc = rt.alloc();
    let term = app(alloc, Term::Var(0), Term::Var(1))?;
    let got = substitute(alloc, &term, 0, &Term::Sort(Sort::Prop))?;
    assert!(rt; alike(&got, &app(alloc, Term::Sort(Sort::Prop), Term::Var(0))?));
    Ok(())
}

#[test]
fn terms_are_put_for_variables(rt: HostRuntime) -> Result<(), Fail> {
    let alloc = rt.alloc();
    let sorts = two_sorts(alloc)?;
    let term = app(alloc, Term::Var(0), Term::Var(1))?;
    let wanted = app(alloc, first_type(alloc), Term::Sort(Sort::Prop))?;
    assert!(rt; alike(&under(alloc, &term, &sorts)?, &wanted));
    let got = fill(alloc, &app(alloc, term, Term::Var(3))?, &sorts)?;
    assert!(rt; alike(&got, &app(alloc, wanted, Term::Var(1))?));
    Ok(())
}

#[test]
fn binder_names_do_not_count(rt: HostRuntime) -> Result<(), Fail> {
    let alloc = rt.alloc();
    let term = lam(alloc, b"x".as_slice(), Term::Var(0))?;
    assert!(rt; alike(&term, &lam(alloc, b"y".as_slice(), Term::Var(0))?));
    assert!(rt; !alike(&term, &lam(alloc, b"x".as_slice(), Term::Var(1))?));
    Ok(())
}

#[test]
fn the_laws_over_derivations_are_there(_rt: HostRuntime) -> Result<(), Fail> {
    derivations::context_of_judgement();
    derivations::weakening();
    derivations::substitution();
    derivations::one_term();
    derivations::growth_of_environment();
    derivations::strict_implies_any();
    derivations::scope_of_strict();
    derivations::extension_of_store();
    derivations::renumbering();
    derivations::lifting();
    derivations::replacement();
    derivations::exchange();
    derivations::one_instance();
    derivations::instance_of_judgement();
    derivations::sound_by_instances();
    derivations::declaring();
    derivations::assigning();
    derivations::unfold_outside();
    Ok(())
}

#[test]
fn the_laws_of_growth_and_of_values_are_there(_rt: HostRuntime) -> Result<(), Fail> {
    derivations::no_other_instance();
    derivations::growth_of_sound_store();
    derivations::growth_of_sound_instances();
    derivations::growth_of_conversion();
    universe_laws::values_of_normal_form();
    universe_laws::normal_form_of_normal();
    universe_laws::values_of_maximum();
    universe_laws::values_of_raised();
    Ok(())
}

#[test]
fn the_laws_of_charges_are_there(_rt: HostRuntime) -> Result<(), Fail> {
    reductions::going_by_allowance();
    reductions::weak_head_by_contractions();
    reductions::step_by_contractions();
    reductions::normal_form_by_contractions();
    reductions::comparison_gives_conversion();
    reductions::inference_gives_type();
    reductions::inference_gives_strict_type();
    reductions::type_check_gives_sort();
    reductions::check_gives_type();
    Ok(())
}
