//! Laws of the definition of answers.
ghost use Rattle.answers.specs.Laws.{OneAnswer};

use classfile::{no_fault_in_class, no_fault_in_formed, one_class, one_fault, one_first_fault};
use hierarchy::laws::{faults_break_rules, one_hierarchy_fault};
use verify::{one_frames, one_report};

/// For each command, and each list of files as they were read, there is one text and one status.
pub fn one_answer()
    ensures { OneAnswer }
{
    one_class();
    no_fault_in_class();
    one_fault();
    no_fault_in_formed();
    one_first_fault();
    faults_break_rules();
    one_hierarchy_fault();
    one_report();
    one_frames();
}
