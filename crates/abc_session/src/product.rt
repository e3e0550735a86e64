//! The bounds with which the program runs.
ghost use Rattle.std.specs.Prelude.{◌≡◌};
ghost use Rattle.abc_session.specs.Product.{product_bounds};

use abc_journal::Bounds;
use abc_num::limits::{CHECKPOINT_BOUND, IMAGE_BOUND, INPUT_BOUND};

/// The bounds of the product: 2^40 bytes of image and of input, and 2^20 for checkpoints.
pub(crate) fn product() -> Bounds
    ensures { result ≡ product_bounds }
{
    Bounds {
        input: INPUT_BOUND,
        image: IMAGE_BOUND,
        checkpoint: CHECKPOINT_BOUND,
    }
}
