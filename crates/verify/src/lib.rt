//! The verdict on a method: whether it is type-safe (JVMS 4.10.1); and the theorem that a type-safe method is safe. The
//! call to know is [`verify_method`]: its answers, case by case, are in specs/Answers.antt.
//!
//! Methods and classes:
//!
//! - `method`: the verdict on a method, step by step; `verdict`: its type; `refusal`: verdicts that refuse.
//! - `report`: the verdicts on the methods of a class.
//! - `final_rules`: the rules on final classes and methods; `listing`: whether a hierarchy has a class as it is.
//! - `play`: the reports on classes whose methods may call each other.
//! - `explanation`: a report, with the frames at the instructions at which methods are refused; `frames_at`: these
//!   frames, by one walk once more over the code; `detail`: what is wrong there, by the reason; `difference_at`: how a
//!   frame that leads to a target or a handler differs from the one that is declared there; `exceptions`: the entry of
//!   the exception table that is at fault; `stack_maps`: the entry of the stack map for which it is refused.
//! - `applying`: one instruction, judged by its rule on a copy of a frame; `environment`: the method, its instructions,
//!   and the classes around it.
//!
//! Files:
//!
//! - `files`: from a file as it was read to a class that is well formed; `opening`: many files, each opened once.
//! - `known_classes`: a class among its known classes; `classes_in_play`: classes in play.
//! - `known_summaries`: a class among classes that are known by their summaries.
//! - `judgements`: the classes of many files, each judged among all; `gathering`: the classes in files, the first of
//!   each name; `standing`: which of these stand.
//!
//! The pass over a method's code:
//!
//! - `pass`: one pass, against the verdict in specs/Verdict.antt, on frames whose types are numbers.
//! - `flow`: reasons that an answer and the end of the code give; `initial`: whether a method begins with its own
//!   object uninitialized.
//!
//! Theorems:
//!
//! - `theorem`: type-safe methods are safe, one by one and where calls enter them.
//! - `laws`: a method is verified exactly where it is type-safe; it has one verdict; the meaning of each refusal and of
//!   its number; a type of the machine takes what the verifier lets it take; walks are runs; which methods are in play,
//!   and that each of them is safe; the words on which 82 and 90 rest; what is seen of a method.
//! - `verified_walk`: walks of the machine through verified methods.
#![tactic(auto)]

mod applying;
mod classes_in_play;
mod detail;
mod difference_at;
mod environment;
mod exceptions;
mod explanation;
mod files;
mod final_rules;
mod flow;
mod frames_at;
mod gathering;
mod initial;
mod judgements;
mod known_classes;
mod known_summaries;
mod laws;
mod listing;
mod method;
mod opening;
mod pass;
mod play;
mod refusal;
mod report;
mod stack_maps;
mod standing;
mod theorem;
mod verdict;
mod verified_walk;

pub use applying::{After, Refusal, apply};
pub use classes_in_play::{TogetherFault, verify_together, verify_together_under};
pub use detail::Detail;
pub use difference_at::DifferenceAt;
pub use environment::Env;
pub use explanation::Explained;
pub use files::{FileFault, FileRead, class_file, summary_in};
pub use final_rules::FinalRule;
pub use frames_at::FramesAt;
pub use judgements::{EachFault, Judgement, verify_each};
pub use known_classes::{AmongFault, explain_among_under, verify_among, verify_among_under};
pub use known_summaries::{KnownSummaries, explain_beside};
pub use laws::{
    class_run_breadth, details_are_told, fits_breadth, frames_are_judged, heap_run_breadth,
    map_details_are_told, map_refused_where, member_words_are_said, methods_are_seen, one_frames,
    one_report, one_verdict, playable_methods_are_safe, refused_breaks, refused_where,
    type_safe_is_verified, verified_is_type_safe, walks_are_runs,
};
pub use method::verify_method;
pub use play::{PlayFault, PlayRule, verify_play};
pub use report::{
    ClassFault, MethodVerdict, Report, verify_by_numbers, verify_class, verify_class_under,
    verify_methods,
};
pub use theorem::{type_safe_is_safe, verified_is_playable, verified_is_playable_with_heap};
pub use verdict::{Verdict, VerifyFault};
pub use verified_walk::{WalkFault, walk_verified};
