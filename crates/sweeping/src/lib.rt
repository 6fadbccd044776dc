// Sweeps a condition: ends from left to right, question one before two; on the first yes the end is cut, the tree folded, and the sweep
// starts again at the first end. A question is asked only while the ration has one left. A question that an assignment found earlier
// answers is asked and counted like any other.
#![tactic(auto)]

ghost use Rattle.nodes.specs.Memory.{node_at};
ghost use Rattle.sweeping.specs.Swept.{Sweeps};

use condition::TREE_ROOM;
use folding::Cut;
use keeping::Kept;
use nodes::Node;

// The tree reached, from node 0 on, the questions asked, and whether the work is finished.
#[derive(Clone, Copy)]
pub struct Swept {
    pub tree: [Node; TREE_ROOM],
    pub asked: u32,
    pub finished: bool,
}

// Sweeps the tree that stands from node 0 on. Question q is question one of end q / 2, counted from 0, or if q is odd question two.
pub fn sweep(ns: &[Node], ration: u32) -> Swept
    ensures { Sweeps (node_at ns.now) ration result.tree result.asked result.finished }
{
    // The result from the start: it is changed in place and handed out, not copied together.
    let mut swept = Swept {
        tree: [Node::Plain(false); TREE_ROOM],
        asked: 0,
        finished: false,
    };
    folding::fold(ns, None, &mut swept.tree);
    let mut end = 2 * asking::live(&swept.tree);
    let mut kept = Kept::none();
    let mut q: usize = 0;
    // No `for`: after a cut q starts again, and how many were asked outlives the loop.
    while swept.asked < ration && q < end {
        let yes = kept.answer(&swept.tree, q);
        swept.asked += 1;
        if yes {
            let cut = Cut {
                end: q / 2,
                to: q % 2 == 0,
            };
            let before = swept.tree;
            folding::fold(&before, Some(cut), &mut swept.tree);
            end = 2 * asking::live(&swept.tree);
            kept.another_tree();
            q = 0;
            continue;
        }
        q += 1;
    }
    swept.finished = end <= q;
    swept
}
