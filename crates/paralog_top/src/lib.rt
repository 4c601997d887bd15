//! The top call: words and bytes in, a text, a note and a status out.
//!
//! The words name a command. Its input is read whole, its answer is a text that is a function of the bytes read, and
//! that text is written whole, in one go. Whatever ends the call before that has a status and a note of its own.
#![tactic(auto)]

mod answer;
mod check;
mod checked;
mod chosen;
mod command;
mod counts;
mod dispatch;
mod ends;
mod generated;
mod guards;
mod input;
mod list;
mod monitor;
mod notes;
mod play;
mod player;
mod probe;
mod recorded;
mod refusal;
mod replay;
mod result;
mod run;
mod run_text;
mod status;
mod threads;
mod top;
mod upgrade;
mod watch;

pub use chosen::Chosen;
pub use command::Command;
pub use input::Input;
pub use job_watch::{JobFeed, JobPlan};
pub use notes::note;
pub use status::Status;
pub use threads::{paralog, threaded};
pub use top::plain_top;
