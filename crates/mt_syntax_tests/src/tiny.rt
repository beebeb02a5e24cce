// Numbers of goals.
use mt_tiny::Goals;
use std::test::Fail;

#[test]
fn numbers(rt: HostRuntime) -> Result<(), Fail> {
    let mut goals = Goals::new(rt.alloc());
    goals.push(3)?;
    goals.push(5)?;
    assert_eq!(rt; goals.len(), 2);
    assert_eq!(rt; goals.get(1), Some(5));
    assert_eq!(rt; goals.get(2), None);
    assert_eq!(rt; goals.as_slice(), [3, 5].as_slice());
    Ok(())
}
