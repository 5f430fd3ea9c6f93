//! What the applications of a host do on their threads: each issues its lines at the host's table with a pass of its own, and waits for what comes of them.
//!
//! It stands on `rd_table`, on the applications of `rd_world` and on `rd_sleepers`. The layer above comes to the lines of a script, runs the applications side by side, and says whom to wake.
//!
//! Cost: a line costs two calls of the table, and one more for each time that it is woken in vain. Operations and replies are moved. An application costs a thread, a split and a join.
#![tactic(auto)]

mod answers;
mod issuer;
mod issues;
mod side_by_side;
mod stint;

pub use issuer::Issuer;
pub use issues::issue_lines;
pub use side_by_side::issue_side_by_side;
