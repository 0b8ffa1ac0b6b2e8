// Plans at their limits.
use plan::{Shape, read};
use plan_letters::nested;
use refusal::Refusal;
use std::test::Fail;

#[test]
fn a_block_of_32_symbols(rt: HostRuntime) -> Result<(), Fail> {
    let plan = nested(rt.alloc(), 32, 31)?;
    assert_eq!(rt;
        read(plan.as_slice(), 32),
        Ok(Shape {
            joins: 31,
            most: 32,
        })
    );
    Ok(())
}

#[test]
fn a_block_of_33_symbols(rt: HostRuntime) -> Result<(), Fail> {
    let plan = nested(rt.alloc(), 33, 32)?;
    assert_eq!(rt;
        read(plan.as_slice(), 33),
        Err(Refusal::Block { place: 64 })
    );
    Ok(())
}

// The stack may be higher than a block is long, if only the joins stay small.
#[test]
fn a_tall_stack(rt: HostRuntime) -> Result<(), Fail> {
    let plan = nested(rt.alloc(), 100, 31)?;
    assert_eq!(rt;
        read(plan.as_slice(), 100),
        Err(Refusal::Standing { place: 131 })
    );
    let plan = nested(rt.alloc(), 100, 99)?;
    assert_eq!(rt;
        read(plan.as_slice(), 100),
        Err(Refusal::Block { place: 131 })
    );
    Ok(())
}

#[test]
fn the_order_of_the_questions(rt: HostRuntime) {
    // a bad letter at the end comes before a bad join at the start
    assert_eq!(rt; read(b"jx", 0), Err(Refusal::Letter { place: 1 }));
    // a letter that does not find what it needs comes before the symbols are counted
    assert_eq!(rt; read(b"sa", 2), Err(Refusal::Unfinished));
    assert_eq!(rt; read(b"saj", 2), Err(Refusal::Standing { place: 2 }));
    assert_eq!(rt; read(b"ss", 2), Err(Refusal::Unfinished));
}

#[test]
fn an_empty_plan(rt: HostRuntime) {
    assert_eq!(rt; read(b"", 0), Ok(Shape { joins: 0, most: 0 }));
    assert_eq!(rt; read(b"", 1), Err(Refusal::Unfinished));
}
