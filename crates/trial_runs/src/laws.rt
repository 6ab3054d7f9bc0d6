//! The law of made captures, for any seed, number of packets and number of keys. The call does nothing.

ghost use Rattle.trial_runs.specs.Laws.{MeteredIsOne, NothingCuts, TestsAreOne, TestsWriteOne};

use flow_key::laws::keys_have_fields;
use record_ledger::laws::lawful_lists_are_sessions;

/// Neither an active time-out of 1000 s and more nor the end of a flow cuts a session of a made capture of at most
/// 1,000,000 packets, whatever the idle time-out. And so what a self test sums up are the records of the capture's
/// sessions, and its stream and its summary are one text. What `meter` writes and reports of any capture whose sessions
/// nothing cuts is one text, too.
pub fn made_captures_law()
    ensures uncut { NothingCuts }
    ensures one { TestsAreOne }
    ensures metered { MeteredIsOne }
    ensures written { TestsWriteOne }
{
    keys_have_fields();
    lawful_lists_are_sessions();
}
