// The texts of a tree.
ghost use Rattle.context.specs.View.{TextsAt};

use crate::Places;

// An accepted tree, and the places of its texts.
#[derive(Clone, Copy)]
pub struct Texts<'a> {
    pub tree: &'a [u8],
    pub places: &'a Places,
    pub ghost placed: { TextsAt tree.now places.now },
}
