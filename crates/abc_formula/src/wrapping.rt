//! Builds a test of the last one that was read and of the frames that wait for it: NOT, AND, OR and quantifiers.
ghost use Rattle.std.specs.Prelude.{◌≡◌, IfOk};
ghost use Rattle.abc_formula.specs.inner.TestSteps.{fold_test, wrapped_by};
ghost use Rattle.abc_tree.specs.declared.formulas.Test.TheVariants.{And, Or};

use crate::test_frames::TestFrame;
use abc_num::{Boxed, OutOfMemory, Stack};
use abc_tree::Test;
use std::alloc::Global;

/// The test that the frames make of the last one.
pub(crate) fn wrapped_by_all(
    alloc: Global,
    frames: &mut Stack<TestFrame>,
    last: Test,
) -> Result<Test, OutOfMemory>
    ensures { IfOk result (λ a. a ≡ fold_test frames.old last) }
{
    let mut test = last;
    while let Some(frame) = frames.pop() {
        test = wrapped_by(alloc, frame, test)?;
    }
    Ok(test)
}

/// The two tests, joined by AND.
fn both(alloc: Global, first: Test, second: Test) -> Result<Test, OutOfMemory>
    ensures { IfOk result (λ a. a ≡ And first second) }
{
    Ok(Test::And(Boxed::new(alloc, first)?, Boxed::new(alloc, second)?))
}

/// The two tests, joined by OR.
fn either(alloc: Global, first: Test, second: Test) -> Result<Test, OutOfMemory>
    ensures { IfOk result (λ a. a ≡ Or first second) }
{
    Ok(Test::Or(Boxed::new(alloc, first)?, Boxed::new(alloc, second)?))
}

/// The test that a frame makes of the one behind it.
fn wrapped_by(alloc: Global, frame: TestFrame, test: Test) -> Result<Test, OutOfMemory>
    ensures { IfOk result (λ a. a ≡ wrapped_by frame test) }
{
    match frame {
        TestFrame::Not => Ok(Test::Not(Boxed::new(alloc, test)?)),
        TestFrame::And(first) => both(alloc, first, test),
        TestFrame::Or(first) => either(alloc, first, test),
        TestFrame::Quantified(quantifier, names, train) => {
            Ok(Test::Quantified(quantifier, names, train, Boxed::new(alloc, test)?))
        }
    }
}
