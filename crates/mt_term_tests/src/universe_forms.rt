// Forms of universe expressions.
use mt_term::{Atom, Atoms, UnivExpr, maximum, normal_form, successor};
use std::alloc::Global;
use std::test::Fail;

fn sum(alloc: Global, base: u32, atoms: &[(usize, u32)]) -> Result<UnivExpr, Fail> {
    let mut list = Atoms::new(alloc);
    for (name, offset) in atoms {
        list.push(Atom {
            name: *name,
            offset: *offset,
        })?;
    }
    Ok(UnivExpr { base, atoms: list })
}

#[test]
fn forms_of_universe_expressions(rt: HostRuntime) -> Result<(), Fail> {
    let alloc = rt.alloc();
    let first = normal_form(alloc, &sum(alloc, 3, &[(1, 1), (0, 2), (1, 3)])?)?;
    assert_eq!(rt; first.base, 0);
    assert!(rt;
        first.atoms.as_slice()
            == [Atom { name: 0, offset: 2 }, Atom { name: 1, offset: 3 }].as_slice()
    );
    let most = maximum(
        alloc,
        &sum(alloc, 4, &[(1, 3)])?,
        &sum(alloc, 2, &[(0, 1)])?,
    )?;
    assert_eq!(rt; most.base, 4);
    assert_eq!(rt; most.atoms.len(), 2);
    let higher = successor(alloc, &sum(alloc, 0, &[(1, 3)])?)?.ok_or("it fits")?;
    assert_eq!(rt; higher.base, 0);
    assert!(rt; higher.atoms.as_slice() == [Atom { name: 1, offset: 4 }].as_slice());
    assert!(rt; successor(alloc, &sum(alloc, 4294967295, &[])?)?.is_none());
    Ok(())
}
