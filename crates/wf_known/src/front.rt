//! What is known in front of a place.

ghost use Rattle.std.specs.Prelude.{◌<◌, ◌^◌, length};

use wf_base::Items;
use wf_rows::{Node, Own};

/// What is known in front of a place, by nodes of the method: the node that says whether control comes there, and for
/// each slot the node of what it holds, `Nothing` where it is unused. Slots are the locals and behind them the cells of
/// the operand stack, the top last.
#[derive(Debug, Drop)]
pub struct Front {
    pub predicate: Node<Own>,
    pub slots: Items<Node<Own>>,
    ghost few: { length slots < 2 ^ 32 },
}
