// Where operands are used: the context, and the marks that stand there.
ghost use Rattle.std.specs.Prelude.{◌≤◌, length};
ghost use Rattle.context.specs.View.{Placed, keys_of};
ghost use Rattle.operands.specs.Props.{distinct_once, place_once};
ghost use Rattle.std.proofs.Props.{props};
ghost use Rattle.sheet.specs.Sheet.{Distinct};

use context::{Key, SemaContext};

// The mark sheet, and the keys that it is for.
#[derive(Clone, Copy)]
pub struct Measured<'a, 'm> {
    pub sema: SemaContext<'a>,
    pub keys: &'a [Key],
    pub marks: &'m [u16; 256],
    pub ghost few: { length keys.now ≤ 256 },
    pub ghost distinct: { Distinct (keys_of keys.now) } by { distinct_once (keys_of keys.now) },
    pub ghost placed: { Placed sema.texts.tree.now marks.now } by { Prim.hlevel (props, place_once) },
}
