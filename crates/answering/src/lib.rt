// Answers a question about an end: its nodes are written, and the search says whether some assignment satisfies them. If none does the
// answer is yes: the critical constraint implies the end, or its negation. Else it is no, and the assignment is handed out.
#![tactic(auto)]

ghost use Rattle.nodes.specs.Memory.{node_at};
ghost use Rattle.answering.specs.Answered.{Answers};

use condition::QUESTION_ROOM;
use nodes::Node;
use settling::Found;

// Question one about end `at`, counted from 0, of the tree laid from node 0; or (second) question two.
pub fn answer(ns: &[Node], at: usize, second: bool) -> Option<Found>
    ensures { Answers (node_at ns.now) at second result }
{
    let mut question = [Node::Plain(false); QUESTION_ROOM];
    // Where no question is written, as of an end that is not there, plain true stands for it, and is answered no: then nothing is cut.
    question[0] = Node::Plain(true);
    asking::ask(ns, at, !second, &mut question);
    settling::find(&question)
}
