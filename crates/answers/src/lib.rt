//! The answers on files, once these are read: a text and a status. The call to know is [`answer`].
//!
//! The commands, by the verdicts of the verifier:
//!
//! - `command`: the commands, and the forms of an answer: words or objects of JSON.
//! - `answering`: `answer`, which answers a command by one of the modules below.
//! - `checking`, `showing`, `playing`, `verifying_each`: the answers to `check`, `show`, `play` and `verify-each`.
//! - `verifying`: the answers to `verify` and `explain`; `manner`: which of the two, and the form.
//! - `beside`: `answer_beside`, the answers to `verify` and `explain` beside classes that are known by their summaries.
//! - `reads`: files as they were read, for the verifier; `fault`: why an answer was not written.
//!
//! The texts:
//!
//! - `telling`: writes a text, and returns its status.
//! - `refusal`: the line of a file that is refused.
//! - `verdicts`: the lines of `verify`; `judgements`: those of `verify-each`; `plays`: those of `play`.
//! - `refusing`: the lines of `verify` and of `explain` where there are no verdicts on a class that is well formed.
//! - `explaining`: the lines of `explain` about methods; `details`: what is wrong with a frame; `unmet_lines`: the line
//!   of an expected type; `sentences`: the sentence on each number.
//!
//! `laws` says that a command has one answer.
//!
//! Definitions: `specs/Answers.antt` has the answer to each command; `Verdicts`, `Plays` and `Judgements` have those to
//! `verify` and `explain`, to `play` and to `verify-each`; `Explanations`, `Sentences` and `Texts` have the texts of
//! `explain`, the sentences, and the lines of files that are refused; `Files` has files as they were read.
#![tactic(auto)]

mod answering;
mod beside;
mod checking;
mod command;
mod details;
mod explaining;
mod fault;
mod judgements;
mod laws;
mod manner;
mod playing;
mod plays;
mod reads;
mod refusal;
mod refusing;
mod sentences;
mod showing;
mod telling;
mod unmet_lines;
mod verdicts;
mod verifying;
mod verifying_each;

pub use answering::answer;
pub use beside::answer_beside;
pub use command::{Command, Form};
pub use fault::AnswerFault;
pub use laws::one_answer;
pub use manner::Manner;
pub use refusal::{Refusal, RefusalFields};
