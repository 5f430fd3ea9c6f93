//! Close (MS-RDPEFS 2.2.1.4.2).

ghost use Rattle.std.specs.Prelude.{◌≡◌, ◌&&◌, ◌||◌, not, nat_lt};
ghost use Rattle.rd_irp.specs.declared.completion.Body.TheVariants as Body;
ghost use Rattle.rd_drive.specs.declared.store.Done.TheVariants as Done;
ghost use Rattle.rd_drive.specs.declared.uses.Uses.{Uses};
ghost use Rattle.rd_drive.specs.Access.{use_of};
ghost use Rattle.rd_drive.specs.Close.{close};
ghost use Rattle.rd_drive.specs.Closed.{closed_on};
ghost use Rattle.rd_drive.specs.Outcome.{on_handle};
ghost use Rattle.rd_drive.specs.Store.{drive_of, IsFed, IsSound, Serves};
ghost use Rattle.rd_drive.specs.UseCounts.{more};

use crate::handle::Handle;
use crate::news::{Change, Named, News, REMOVED, name_bit};
use crate::node::NodeState;
use crate::store::{Done, Outcome, Store};
use rd_base::Status;
use rd_irp::Body;
use rd_tree::NodeId;

impl Store {
    /// Closes a file. It takes no memory.
    pub fn close(&mut self, file: u32) -> Outcome
        requires sound { IsSound self.old }
        ensures serves { Serves self.old self.new (on_handle (drive_of self.old) file (close (drive_of self.old) file)) result }
        ensures fed { IsFed result }
    {
        self.ordered();
        let Some(handle) = self.handle(file) else {
            return Err(Status::INVALID_HANDLE);
        };
        let node = handle.node;
        let state = left(self.state(node), handle);
        self.handles.remove(&file);
        self.locks.release(file);
        if !goes(state) {
            self.set_state(node, state);
            return Ok(closed(file, node));
        }
        let folder = self.tree.parent(node);
        let bits = name_bit(self.tree.is_folder(node));
        let Ok(name) = self.tree.remove(node) else {
            self.set_state(
                node,
                NodeState {
                    pending: false,
                    ..state
                },
            );
            return Ok(closed(file, node));
        };
        self.states.remove(&node.0);
        let gone = Change {
            action: REMOVED,
            named: Named::Gone { folder, name },
            bits,
        };
        let news = News {
            closed: Some(file),
            unlocked: None,
            changes: [Some(gone), None, None],
        };
        Ok(Done::Replied(Body::Closed, news))
    }
}

/// What is kept of a node when one of its handles is closed.
fn left(state: NodeState, handle: &Handle) -> NodeState
    requires { (uses : Uses) × (state.uses ≡ more (use_of handle.now.access handle.now.share) uses) }
    ensures { (uses : Uses) → state.uses ≡ more (use_of handle.now.access handle.now.share) uses
        → result ≡ record state { uses = uses; pending = state.pending || handle.now.delete_on_close } }
{
    let mut uses = state.uses;
    uses.remove(handle.usage());
    NodeState {
        pending: state.pending || handle.delete_on_close,
        uses,
        ..state
    }
}

/// Whether a node of which this is kept goes: it is pending, and has no handle.
fn goes(state: NodeState) -> bool
    ensures { result ≡ (state.pending && not (nat_lt 0 state.uses.handles)) }
{
    state.pending && state.uses.handles == 0
}

/// A file is closed, and its node stays.
fn closed(file: u32, node: NodeId) -> Done
    ensures { result ≡ Done.Replied Body.Closed (closed_on file node) }
{
    let mut news = News::unlocked(node);
    news.closed = Some(file);
    Done::Replied(Body::Closed, news)
}
