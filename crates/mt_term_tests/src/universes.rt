// The order of universes, and what is declared of it.
use mt_term::{Atom, Atoms, Name, UnivExpr};
use mt_universe::{
    Graph, GraphStop, cycle_by_valuations, expression_order_by_valuations,
    same_sorts_by_valuations, sort_order_by_valuations,
};
use std::alloc::{AllocError, Global};
use std::clone::Clone;
use std::test::Fail;

fn at(alloc: Global, base: u32, name: usize, offset: u32) -> Result<UnivExpr, AllocError> {
    let mut atoms = Atoms::new(alloc);
    atoms.push(Atom { name, offset })?;
    Ok(UnivExpr { base, atoms })
}

#[test]
fn a_257th_name_is_refused(rt: HostRuntime) -> Result<(), Fail> {
    let alloc = rt.alloc();
    let mut graph = Graph::new(alloc);
    for i in 1..=255u8 {
        let low = Name::from_bytes(alloc, &[0])?;
        let high = Name::from_bytes(alloc, &[i])?;
        graph.declare(low, high)?;
    }
    let first = Name::from_bytes(alloc, &[0])?;
    let last = Name::from_bytes(alloc, &[255])?;
    let other = Name::from_bytes(alloc, b"other")?;
    assert_eq!(rt;
        graph.declare(other, first.clone()?),
        Err(GraphStop::TooMany)
    );
    assert_eq!(rt; graph.declare(last, first), Err(GraphStop::Cycle));
    assert!(rt; graph.leq(&at(alloc, 0, 0, 1)?, &at(alloc, 0, 255, 0)?));
    assert!(rt; !graph.leq(&at(alloc, 0, 0, 2)?, &at(alloc, 0, 255, 0)?));
    Ok(())
}

#[test]
fn laws(_rt: HostRuntime) {
    expression_order_by_valuations();
    sort_order_by_valuations();
    same_sorts_by_valuations();
    cycle_by_valuations();
}
