//! Laws of the definitions. Each function does nothing: its contract is the law.
ghost use Rattle.file_programs.specs.FileLives.{LeavesAState, LeavesItsState, OpensToAState};

use doc_store::laws::one_state_stands;

/// Processes that open one file after another: each goes on from the state that the last one left, which has every
/// change that was answered as done, or, if it was stopped, from that after some of the changes that it accepted.
pub fn lives_go_on()
    ensures opens { OpensToAState }
    ensures ends { LeavesItsState }
    ensures stops { LeavesAState }
{
    one_state_stands();
}
