//! Laws of items.
ghost use Rattle.abc_reader.specs.Items.{AreSteady};

/// Whatever comes of them, the items of an input are those of a session that is served while its input comes: what is so of
/// some lines stays so whatever lines follow, and none is waited for at the end of the input.
pub fn items_are_steady<W>()
    ensures { AreSteady W }
{}
