// Calls of stacks, levels and lists of goals.
use crate::prover::SmallProver;
use mt_tiny::{
    Goals, Located, Prover, Stack, Tag, all_goals, any_open, dotted, may_focus, numbered, one_goal,
    opened, picked,
};
use std::test::Fail;

#[test]
fn a_stack_has_one_level_first(rt: HostRuntime) -> Result<(), Fail> {
    let alloc = rt.alloc();
    let mut stack = Stack::new(alloc, 4)?;
    let copy = stack.copy(alloc)?;
    stack.set_top(one_goal(alloc, 7)?, one_goal(alloc, 8)?);
    assert_eq!(rt; stack.levels().len(), 1);
    assert!(rt; stack.levels().get(1).is_none());
    let top = stack.levels().get(0).ok_or("a level")?;
    assert_eq!(rt; top.focus.as_slice(), [7].as_slice());
    assert_eq!(rt; top.pending.as_slice(), [8].as_slice());
    assert!(rt; matches!(top.tag, Tag::Bottom));
    let first = copy.levels().get(0).ok_or("a level")?;
    assert_eq!(rt; first.focus.as_slice(), [4].as_slice());
    Ok(())
}

#[test]
fn lists_of_goals(rt: HostRuntime) -> Result<(), Fail> {
    let alloc = rt.alloc();
    let prover = SmallProver {
        made: 4,
        closed: one_goal(alloc, 2)?,
        left: 10,
    };
    assert!(rt; prover.is_open(1));
    assert!(rt; !prover.is_open(2));
    assert_eq!(rt;
        opened(alloc, &prover, &[3, 2, 1])?.as_slice(),
        [3, 1].as_slice()
    );
    assert!(rt; any_open(&prover, &[2, 1]));
    assert!(rt; may_focus(&prover, &[3, 1]));
    assert!(rt; !may_focus(&prover, &[1, 1]));
    let (focus, pending) = dotted(alloc, &prover, &[2, 3, 1], &[2])?;
    assert_eq!(rt; focus.as_slice(), [3].as_slice());
    assert_eq!(rt; pending.as_slice(), [1, 2].as_slice());
    Ok(())
}

#[test]
fn goals_at_positions(rt: HostRuntime) -> Result<(), Fail> {
    let alloc = rt.alloc();
    let mut placed = Located::new(alloc);
    placed.push(9, 5)?;
    assert_eq!(rt; placed.take_at(8), None);
    assert_eq!(rt; placed.take_at(9), Some(5));
    let located = numbered(alloc, 1, &[6, 7, 8])?;
    assert_eq!(rt;
        all_goals(alloc, located.as_slice())?.as_slice(),
        [6, 7, 8].as_slice()
    );
    let (goals, others) = picked(alloc, &[3, 1], located)?.ok_or("positions")?;
    assert_eq!(rt; goals.as_slice(), [8, 6].as_slice());
    assert_eq!(rt; others.as_slice(), [(2, 7)].as_slice());
    let mut more = Goals::new(alloc);
    more.append(goals.as_slice())?;
    assert_eq!(rt; more.len(), 2);
    Ok(())
}
