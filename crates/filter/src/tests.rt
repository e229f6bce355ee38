// Which steps make a filter, its steps by their numbers, and walks along starts and ends.
use super::filters::Filter;
use super::steps::{Axis, Step, Test};
use super::walks::Walk;
use std::process::Abort;
use std::test::Fail;

const ANY: Step = Step {
    axis: Axis::Child,
    test: Test::Any,
};

const D: Step = Step {
    axis: Axis::Descendant,
    test: Test::Code(68),
};

const G: Step = Step {
    axis: Axis::Child,
    test: Test::Code(71),
};

fn made(steps: &[Step]) -> Result<Filter, Fail> {
    Filter::from_steps(steps).ok_or_else(|| Fail::new("refused"))
}

#[test]
fn lengths(rt: HostRuntime) {
    let row = [ANY; 9];
    for (n, taken) in [(0, false), (1, true), (8, true), (9, false)] {
        assert!(rt; n <= row.len());
        assert_eq!(rt; Filter::from_steps(&row[0..n]).is_some(), taken);
    }
}

#[test]
fn codes(rt: HostRuntime) {
    for (code, known) in [(0, false), (1, true), (512, true), (513, false)] {
        let step = Step {
            axis: Axis::Child,
            test: Test::Code(code),
        };
        assert_eq!(rt; Filter::from_steps(&[ANY, step]).is_some(), known);
    }
}

#[test]
fn numbers(rt: HostRuntime) -> Result<(), Fail> {
    assert_eq!(rt; Filter::new().steps(), [ANY].as_slice());
    let filter = made(&[D, G, ANY])?;
    assert_eq!(rt; filter.len(), 3);
    assert_eq!(rt; filter.steps(), [D, G, ANY].as_slice());
    for (k, step) in [
        (0, None),
        (1, Some(D)),
        (2, Some(G)),
        (3, Some(ANY)),
        (4, None),
    ] {
        assert_eq!(rt; filter.step(k), step);
    }
    Ok(())
}

// A letter starts an element whose code is the letter's byte, and / ends one; + stands where the filter embeds.
fn goes(rt: &impl Abort, steps: &[Step], moves: &[u8], hits: &[u8]) -> Result<(), Fail> {
    assert_eq!(rt; moves.len(), hits.len());
    let filter = made(steps)?;
    let mut walk = Walk::new(&filter);
    for (step, hit) in moves.iter().zip(hits.iter()) {
        if *step == b'/' {
            walk.end();
        } else {
            assert_eq!(rt; walk.start(u16::from(*step)), *hit == b'+');
        }
    }
    Ok(())
}

#[test]
fn walks(rt: HostRuntime) -> Result<(), Fail> {
    goes(&rt, &[D, G], b"/DGG/DG///GX", b"..+...+...+.")?;
    goes(&rt, &[G, D], b"GXD/DD/////DD", b"..+.++.......")?;
    goes(&rt, &[ANY, G], b"XGG//D/G", b".+.....+")
}

#[test]
fn depths(rt: HostRuntime) -> Result<(), Fail> {
    let filter = made(&[D, G])?;
    let mut walk = Walk::new(&filter);
    for _ in 0..30 {
        assert_eq!(rt; walk.start(3), false);
    }
    assert_eq!(rt; walk.start(68), false);
    assert_eq!(rt; walk.start(71), true);
    assert_eq!(rt; walk.start(71), false);
    walk.end();
    assert_eq!(rt; walk.start(71), true);
    Ok(())
}
