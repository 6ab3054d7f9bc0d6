//! Laws about what inputs become. These functions do nothing; each contract is a law.

ghost use Rattle.join_program.specs.Laws.{OrderIsFree, JoinsAreJoined, AnyAreJoined, AnyAreAnswered};
ghost use Rattle.join_program.specs.Laws.{SharesAreWhole, SharesAreJoined, AnswerIsOne};

use ipfix_writer::laws::layout_is_one;
use record_ledger::laws::{lawful_lists_are_sessions, lawful_lists_go_together};

/// A join of joins is a join. Take the inputs in any order, and let some groups of them be joined beforehand, with the
/// same time-outs, each to one stream or to all the shares of one join. Then whatever the resulting streams become is
/// what all the inputs become, and what is written for these streams is an answer to joining all the inputs.
pub fn joins_are_joined()
    ensures order { OrderIsFree }
    ensures one { JoinsAreJoined }
    ensures any { AnyAreJoined }
    ensures answers { AnyAreAnswered }
{}

/// All the shares of one join are the whole of it: put together in the written order they are what the inputs become
/// without a share, and whatever the shares become when they are joined is what the inputs become.
pub fn shares_are_whole()
    ensures whole { SharesAreWhole }
    ensures joined { SharesAreJoined }
{
    lawful_lists_go_together();
    lawful_lists_are_sessions();
}

/// Where nothing cuts the sessions of the packets, the packets, the time-outs and the size of messages determine every
/// byte that is written, in whatever way the packets were cut into captures and their records shared among streams.
pub fn answer_is_one()
    ensures { AnswerIsOne }
{
    lawful_lists_are_sessions();
    layout_is_one();
}
