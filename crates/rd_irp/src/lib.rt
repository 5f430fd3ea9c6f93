//! Requests and completions (MS-RDPEFS 2.2.1.4, 2.2.1.5, 2.2.3.3 and 2.2.3.4) as values and as bytes.
//!
//! It stands on `rd_base`. The layers above use one contract of it for each message: bytes are a value with a count of
//! ignored bytes after it, or have a first fault. A request whose head reads is always a value: where its body has a
//! fault, the operation is `Malformed` and carries that fault, so that it can be completed.
//!
//! Cost: a message is written into one buffer of its exact size, or after what the caller's buffer holds (`put_request`,
//! `put_completion`), and a path or a byte field is copied once.
#![tactic(auto)]

mod classes;
mod completion;
mod directory;
mod files;
mod laws;
mod lock;
mod measure;
mod op;
mod path;
mod request;

pub use completion::{
    Body, COMPLETION_HEAD_LEN, Head, Kind, Reply, body_fits, is_countable, kind_of, kind_of_major,
    put_body, put_completion, read_body, read_head, write_body, write_completion,
};
pub use laws::{
    completion_body_is_decided, completion_head_is_decided, request_is_decided, worked_operations,
};
pub use measure::{measure_body, measure_request};
pub use op::{MAX_BUFFER, MAX_PATH, MAX_RANGES, Op, Range, Ranges, fits};
pub use request::{Request, RequestHead, put_request, read_request, write_request};
