// Blocks of each kind, with how they end. The endings come from a model of the meaning that is apart from the program.
use crate::agreement::{
    Ending, NO_BRANCH, NO_GOAL, NO_SUCH_POSITION, NOT_HERE, REFUSED, SPENT, done, ends, stops,
};
use std::test::Fail;

#[test]
fn actions(rt: HostRuntime) -> Result<(), Fail> {
    let alloc = rt.alloc();
    assert!(rt; ends(alloc, "s", done(&[0], &[], 30))?);
    assert!(rt; ends(alloc, "a1", done(&[], &[], 29))?);
    assert!(rt; ends(alloc, "a31", done(&[1, 2, 3], &[], 29))?);
    assert!(rt; ends(alloc, "a31 ; s", done(&[1, 2, 3], &[], 29))?);
    assert!(rt; ends(alloc, "a31 . a2", done(&[], &[2, 3], 27))?);
    assert!(rt; ends(alloc, "a31 ; a2", done(&[], &[], 23))?);
    Ok(())
}

#[test]
fn actions_and_more(rt: HostRuntime) -> Result<(), Fail> {
    let alloc = rt.alloc();
    assert!(rt; ends(alloc, "a1 ; a1", stops(NO_GOAL, 2, 29))?);
    assert!(rt; ends(alloc, "a9", stops(REFUSED, 0, 30))?);
    assert!(rt; ends(alloc, "a31 ; a9", stops(REFUSED, 2, 29))?);
    assert!(rt; ends(alloc, "a31 . a1 . a1 . a1", done(&[], &[], 26))?);
    assert!(rt; ends(alloc, "a31 . a302", done(&[], &[2, 3], 27))?);
    assert!(rt; ends(alloc, "a8 ; s", done(&[], &[], 22))?);
    Ok(())
}

#[test]
fn branches_in_branches(rt: HostRuntime) -> Result<(), Fail> {
    let alloc = rt.alloc();
    assert!(rt; ends(alloc, "a21 ; [ a1 | a2 ]", done(&[], &[], 26))?);
    assert!(rt;
        ends(
            alloc,
            "a21 ; [ a21 ; [ a1 | a1 ] | a2 ]",
            done(&[], &[], 24)
        )?
    );
    assert!(rt;
        ends(
            alloc,
            "a31 ; [ [ [ a1 ] ] | a21 ; [ a1 | a21 ; [ a2 | a3 ] ] | s ]",
            done(&[3], &[], 20)
        )?
    );
    assert!(rt;
        ends(
            alloc,
            "a31 ; [ a21 . | a21 . a1 | s ]",
            done(&[4, 5, 7, 3], &[], 26)
        )?
    );
    assert!(rt;
        ends(
            alloc,
            "a31 ; [ a31 ; [ 2: a21 ; [ 2: a1 | s ] | s ] | s ]",
            done(&[7, 4, 6, 2, 3], &[], 26)
        )?
    );
    assert!(rt; ends(alloc, "a21 ; [ a21 ; [ a1 | ] | ] ; a1", done(&[], &[], 25))?);
    Ok(())
}

#[test]
fn branches_in_branches_and_more(rt: HostRuntime) -> Result<(), Fail> {
    let alloc = rt.alloc();
    assert!(rt;
        ends(
            alloc,
            "a41 ; [ a11 ; [ a11 ; [ a11 ] ] | s | a1 ]",
            done(&[7, 2, 4], &[], 25)
        )?
    );
    assert!(rt;
        ends(
            alloc,
            "a31 . [ a21 ; [ a1 | a2 ] ] . a3",
            done(&[], &[3], 22)
        )?
    );
    Ok(())
}

#[test]
fn empty_branches(rt: HostRuntime) -> Result<(), Fail> {
    let alloc = rt.alloc();
    assert!(rt; ends(alloc, "a31 ; [ | | ]", done(&[1, 2, 3], &[], 29))?);
    assert!(rt; ends(alloc, "a31 ; [ | a1 | ]", done(&[1, 3], &[], 28))?);
    assert!(rt; ends(alloc, "a31 ; [ ]", done(&[1, 2, 3], &[], 29))?);
    assert!(rt; ends(alloc, "a31 ; [ | ] ; a1", done(&[], &[], 26))?);
    assert!(rt; ends(alloc, "a21 ; [ [ ] | [ ] ]", done(&[1, 2], &[], 29))?);
    assert!(rt; ends(alloc, "a31 ; [ 3: | 1: ] ; a1", done(&[], &[], 26))?);
    Ok(())
}

#[test]
fn empty_branches_and_more(rt: HostRuntime) -> Result<(), Fail> {
    let alloc = rt.alloc();
    assert!(rt; ends(alloc, "a31 ; [ *: ] . a1", done(&[], &[2, 3], 28))?);
    Ok(())
}

#[test]
fn positions(rt: HostRuntime) -> Result<(), Fail> {
    let alloc = rt.alloc();
    assert!(rt; ends(alloc, "a31 ; [ 1,2: a1 | a2 ]", done(&[], &[], 25))?);
    assert!(rt; ends(alloc, "a31 ; [ 3,1: a11 | s ]", done(&[4, 5, 2], &[], 27))?);
    assert!(rt; ends(alloc, "a31 ; [ 3: a1 | 1: a2 | 2: a3 ]", done(&[], &[], 23))?);
    assert!(rt; ends(alloc, "a31 ; [ *: a1 ]", done(&[], &[], 26))?);
    assert!(rt; ends(alloc, "a31 ; [ 2: a1 | *: a2 ]", done(&[], &[], 24))?);
    assert!(rt;
        ends(
            alloc,
            "a41 ; [ 4,2: [ a1 | 2: s ] | a1 ]",
            done(&[2, 3], &[], 27)
        )?
    );
    Ok(())
}

#[test]
fn positions_and_more(rt: HostRuntime) -> Result<(), Fail> {
    let alloc = rt.alloc();
    assert!(rt;
        ends(
            alloc,
            "a31 ; [ 1: a1 | *: a21 ]",
            done(&[4, 5, 6, 7], &[], 26)
        )?
    );
    Ok(())
}

#[test]
fn positions_out_of_range(rt: HostRuntime) -> Result<(), Fail> {
    let alloc = rt.alloc();
    assert!(rt; ends(alloc, "a31 ; [ 4: a1 ]", stops(NO_SUCH_POSITION, 3, 29))?);
    assert!(rt; ends(alloc, "a31 ; [ 0: a1 ]", stops(NO_SUCH_POSITION, 3, 29))?);
    assert!(rt; ends(alloc, "a31 ; [ 1,1: a1 ]", stops(NO_SUCH_POSITION, 3, 29))?);
    assert!(rt;
        ends(
            alloc,
            "a31 ; [ 2: s | 2: s ]",
            stops(NO_SUCH_POSITION, 6, 29)
        )?
    );
    assert!(rt; ends(alloc, "a31 ; [ a1 | 1: s ]", stops(NO_SUCH_POSITION, 5, 28))?);
    assert!(rt; ends(alloc, "a21 ; [ s | s | s ]", stops(NO_BRANCH, 6, 29))?);
    Ok(())
}

#[test]
fn positions_out_of_range_and_more(rt: HostRuntime) -> Result<(), Fail> {
    let alloc = rt.alloc();
    assert!(rt; ends(alloc, "a21 ; [ *: s | s ]", stops(NO_BRANCH, 5, 29))?);
    assert!(rt; ends(alloc, "a21 ; [ *: s | 1: s ]", stops(NO_BRANCH, 5, 29))?);
    assert!(rt; ends(alloc, "a1 ; [ s ]", stops(NO_GOAL, 2, 29))?);
    assert!(rt;
        ends(
            alloc,
            "a21 ; [ a1 | [ 2: s ] ]",
            stops(NO_SUCH_POSITION, 6, 28)
        )?
    );
    Ok(())
}

#[test]
fn focus(rt: HostRuntime) -> Result<(), Fail> {
    let alloc = rt.alloc();
    assert!(rt; ends(alloc, "a31 ; f2 ; a1 u", done(&[1, 2, 3], &[], 28))?);
    assert!(rt; ends(alloc, "a31 ; f3,1 ; a1 u ; a2", done(&[], &[], 25))?);
    assert!(rt; ends(alloc, "a31 ; f2 ; u", stops(NOT_HERE, 4, 29))?);
    assert!(rt; ends(alloc, "a31 ; f2,2 ; a1 u", stops(NO_GOAL, 2, 29))?);
    assert!(rt; ends(alloc, "a31 ; f7 ; a1 u", stops(NO_GOAL, 2, 29))?);
    assert!(rt; ends(alloc, "a31 ; a1 ; f1 ; a1 u", stops(NO_GOAL, 4, 26))?);
    Ok(())
}

#[test]
fn focus_and_more(rt: HostRuntime) -> Result<(), Fail> {
    let alloc = rt.alloc();
    assert!(rt; ends(alloc, "a31 ; f3,2 . a1 u", stops(NOT_HERE, 5, 28))?);
    assert!(rt; ends(alloc, "a31 ; f3,2 . a1 . a1 u", done(&[1, 2, 3], &[], 27))?);
    assert!(rt;
        ends(
            alloc,
            "a31 ; f1 ; f2 ; a1 u ; a1 u . s",
            done(&[3], &[], 27)
        )?
    );
    assert!(rt;
        ends(
            alloc,
            "a31 ; f1 ; a21 ; [ a1 | a1 ] u ; [ a1 | s ]",
            done(&[3], &[], 25)
        )?
    );
    assert!(rt; ends(alloc, "a31 ; [ f3 ; a1 u | s ]", done(&[1, 2], &[], 28))?);
    assert!(rt; ends(alloc, "a31 ; f2,3 ; [ a1 | a1 ] u . a4", done(&[], &[], 23))?);
    Ok(())
}

#[test]
fn goals_that_others_close(rt: HostRuntime) -> Result<(), Fail> {
    let alloc = rt.alloc();
    assert!(rt; ends(alloc, "a31 ; [ a301 | s | s ]", done(&[2], &[], 28))?);
    assert!(rt; ends(alloc, "a31 ; [ a201 | a1 ]", stops(NO_GOAL, 5, 28))?);
    assert!(rt; ends(alloc, "a31 ; [ 3: a101 | s | a1 ] ; s", done(&[], &[], 27))?);
    assert!(rt; ends(alloc, "a31 ; [ 3: a101 | a1 ]", stops(NO_GOAL, 6, 28))?);
    assert!(rt; ends(alloc, "a31 ; [ a201 | s | a1 ] ; s", done(&[], &[], 27))?);
    assert!(rt; ends(alloc, "a31 . a201 . a1 . s", done(&[], &[], 27))?);
    Ok(())
}

#[test]
fn goals_that_others_close_and_more(rt: HostRuntime) -> Result<(), Fail> {
    let alloc = rt.alloc();
    assert!(rt; ends(alloc, "a31 ; a301", done(&[], &[], 27))?);
    assert!(rt; ends(alloc, "a31 ; a201 ; s", done(&[], &[], 27))?);
    assert!(rt;
        ends(
            alloc,
            "a41 ; f4 ; a101 u ; [ a1 | a2 | a3 ]",
            stops(NO_BRANCH, 11, 25)
        )?
    );
    assert!(rt;
        ends(
            alloc,
            "a41 ; f4 ; a101 u ; [ 1: a1 | 4: s ]",
            stops(NO_SUCH_POSITION, 11, 27)
        )?
    );
    assert!(rt;
        ends(
            alloc,
            "a31 ; f1 ; a301 u ; [ s | s ]",
            stops(NO_BRANCH, 9, 28)
        )?
    );
    assert!(rt; ends(alloc, "a31 ; f1,2 ; a201 u ; [ a1 ]", done(&[], &[], 27))?);
    Ok(())
}

#[test]
fn one_allowance_for_a_block(rt: HostRuntime) -> Result<(), Fail> {
    let alloc = rt.alloc();
    assert!(rt; ends(alloc, "a31 ; a21 ; a3 ; s", done(&[], &[], 8))?);
    assert!(rt; ends(alloc, "a38 ; a8 ; s", stops(SPENT, 2, 0))?);
    assert!(rt; ends(alloc, "a38 ; [ a8 | a8 | a8 ]", stops(SPENT, 7, 0))?);
    assert!(rt; ends(alloc, "a37 . a7 . a7 . a7", done(&[], &[], 2))?);
    assert!(rt; ends(alloc, "a18 ; a18 ; a18 ; a8", stops(SPENT, 6, 0))?);
    assert!(rt; ends(alloc, "a38 ; f1 ; a8 u ; a8", stops(SPENT, 7, 0))?);
    Ok(())
}
