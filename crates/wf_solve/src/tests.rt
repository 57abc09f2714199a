//! The list of work, and the smallest system.

mod made;
mod one_int;

use crate::worklist::Worklist;
use std::test::Fail;
use wf_base::NodeId;

/// What is put on the list comes off it once, also past the end of a word and of the search.
#[test]
fn nodes_come_off_once(rt: HostRuntime) -> Result<(), Fail> {
    let mut work = Worklist::open(rt.alloc(), 200)?;
    assert_eq!(rt; work.take(), None);
    work.add(NodeId(130));
    work.add(NodeId(199));
    work.add(NodeId(130));
    assert_eq!(rt; work.take(), Some(NodeId(130)));
    work.add(NodeId(0));
    assert_eq!(rt; work.take(), Some(NodeId(199)));
    assert_eq!(rt; work.take(), Some(NodeId(0)));
    assert_eq!(rt; work.take(), None);
    Ok(())
}
