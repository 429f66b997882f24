//! Answers messages about classes, one after the other. The call to know is [`serve`].
//!
//! - `serving`: `serve`, which answers messages until they end; `setting`: how; `peer`: whoever asks.
//! - `step`: the reply to one message; `known`: which class may become known, and where its texts are kept; `file`: the
//!   bytes of a message as a file.
//! - `message`: messages, and how they are read; `reply`: replies; `lines`: the lines that answer `k`.
//! - `stop`: why no further message is answered.
//!
//! Definitions: `specs/Conversations.antt` has what is answered, by `Steps`, `KnownClasses`, `Messages` and `Lines`.
#![tactic(auto)]

mod file;
mod known;
mod lines;
mod message;
mod peer;
mod reply;
mod serving;
mod setting;
mod step;
mod stop;

pub use known::KnownFault;
pub use lines::complaint;
pub use message::{Kind, Message};
pub use peer::Peer;
pub use reply::Reply;
pub use serving::serve;
pub use setting::Setting;
pub use stop::{ServeFault, Stop};
