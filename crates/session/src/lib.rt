//! A session over any disk. It reads requests, one per line, carries them out on a machine, and answers each with a
//! line.
#![tactic(auto)]

mod acknowledging;
mod answer;
mod commit;
mod files;
mod line;
mod notes;
mod paging;
mod ranges;
mod request;
mod request_fault;
mod requests;
mod resize;
mod serving;
mod session;
mod session_fault;

pub use acknowledging::acknowledges;
pub use files::{FileLine, Files};
pub use line::{Line, read_line};
pub use notes::Notes;
pub use ranges::Reached;
pub use request::{Request, read_request, read_shape};
pub use request_fault::RequestFault;
pub use serving::{serve_line, serve_on};
pub use session::{Session, start};
pub use session_fault::SessionFault;
