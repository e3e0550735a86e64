//! Whether a test is higher than so many levels.
ghost use Rattle.std.specs.Prelude.{◌<◌, ◌+◌, ◌↔◌, IsTrue, map};
ghost use Rattle.abc_tree.specs.Height.{height, test_height, above};

use abc_expressions::{a_part_reaches, reaches};
use abc_tree::{Link, Test};

/// Whether the test is higher than `most` levels. It takes no memory.
#[cycle(test_height)]
pub fn is_test_higher(test: &Test, most: u32) -> bool
    ensures { IsTrue result ↔ (most < test_height test.now) }
{
    match test {
        Test::Chain(first, links) => reaches(first, most) || a_link_reaches(links.as_slice(), most),
        Test::Member(_, e, t) => reaches(e, most) || reaches(t, most),
        Test::And(a, b) => test_reaches(a.get(), most) || test_reaches(b.get(), most),
        Test::Or(a, b) => test_reaches(a.get(), most) || test_reaches(b.get(), most),
        Test::Not(a) => test_reaches(a.get(), most),
        Test::Quantified(_, _, train, a) => reaches(train, most) || test_reaches(a.get(), most),
        Test::Call(_, actuals) => a_part_reaches(actuals.as_slice(), most),
        Test::Refinement(_) => false,
    }
}

/// Whether the test is at least so high.
#[cycle(test_height)]
fn test_reaches(test: &Test, least: u32) -> bool
    ensures { IsTrue result ↔ (least < test_height test.now + 1) }
{
    least == 0 || is_test_higher(test, least - 1)
}

/// Whether the right side of one of the links is at least so high.
fn a_link_reaches(links: &[Link], least: u32) -> bool
    ensures { IsTrue result ↔ (least < above (map (λ link. height link.right) links.now)) }
{
    for link in links {
        if reaches(&link.right, least) {
            return true;
        }
    }
    false
}
