//! The search by template in a list that is in the order of its elements' templates.
ghost use Rattle.std.specs.Prelude.{◌≡◌, IfOk, IfErr};
ghost use Rattle.abc_tree.specs.Ordered.{RiseBy};
ghost use Rattle.abc_tree.specs.inner.Search.{IsAt, IsGap};

use crate::Template;
use std::cmp::Ordering;

/// What has a template.
pub(crate) trait HasTemplate {
    ghost use Rattle.abc_tree.specs.declared.templates.Template.{Template};

    ghost key: { Self → Template };

    fn template(&self) -> &Template
        ensures { result.now ≡ key self.now };
}

/// Where the element with this template is, or where it would go.
pub(crate) fn place_of<T: HasTemplate>(items: &[T], t: &Template) -> Result<usize, usize>
    requires { RiseBy T.key items.now }
    ensures found { IfOk result (IsAt T.key items.now t.now) }
    ensures absent { IfErr result (IsGap T.key items.now t.now) }
{
    let mut low = 0;
    let mut high = items.len();
    'halves: while low < high {
        let middle = low + (high - low) / 2;
        match items[middle].template().cmp(t) {
            Ordering::Less => low = middle + 1,
            Ordering::Equal => return Ok(middle),
            Ordering::Greater => high = middle,
        }
    }
    Err(low)
}
