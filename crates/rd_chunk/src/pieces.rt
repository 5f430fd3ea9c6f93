//! The messages of a stream that is there in pieces.

ghost use Rattle.std.specs.Prelude.{◌≡◌, ℕ, List, ◌++◌, None, IfOk, IfErr, OnOk, MatchResult};
ghost use Rattle.std.specs.List.{concat};
ghost use Rattle.rd_chunk.specs.Frames.{Carried};
ghost use Rattle.rd_chunk.specs.Standing.{HasJoined, ForFeedBad, waiting};
ghost use Rattle.rd_chunk.specs.Streams.{IsStream, IsFaultOf};

use crate::fault::FeedNo;
use crate::joiner::Joiner;
use rd_base::Bytes;
use std::alloc::Global;

/// The messages of a stream that comes in these pieces, in order. What comes after the last whole one is let go.
pub fn join_pieces(alloc: Global, pieces: &[Bytes]) -> Result<Vec<Bytes>, FeedNo>
    ensures stream { IfOk result (λ joined. IsStream joined.items (concat pieces.now)) }
    // So the messages that come out are those that went in, however their frames were cut.
    ensures sent { (messages : List (List ℕ)) → Carried messages (concat pieces.now) →
        MatchResult result (λ joined. joined.items ≡ messages) (λ no. no ≡ FeedNo.Memory) }
    ensures fault { IfErr result (ForFeedBad (IsFaultOf (concat pieces.now))) }
{
    let mut joiner = Joiner::new(alloc);
    let mut messages = Vec::new(alloc);
    for piece in pieces {
        feed_whole(&mut joiner, &mut messages, piece.as_slice())?;
    }
    Ok(messages)
}

/// Feeds a whole piece, and takes each message that is finished on the way.
fn feed_whole(joiner: &mut Joiner, messages: &mut Vec<Bytes>, piece: &[u8]) -> Result<(), FeedNo>
    requires { waiting joiner.old ≡ None }
    ensures none_waits { OnOk result (waiting joiner.new ≡ None) }
    ensures joined { OnOk result ((bytes : List ℕ) → HasJoined joiner.old messages.old.items bytes →
        HasJoined joiner.new messages.new.items (bytes ++ piece.now)) }
    ensures fault { IfErr result (ForFeedBad (λ bad. (bytes : List ℕ) →
        HasJoined joiner.old messages.old.items bytes → IsFaultOf (bytes ++ piece.now) bad)) }
{
    let mut at = 0;
    while at < piece.len() {
        at += joiner.feed(&piece[at..])?;
        if let Some(message) = joiner.take() {
            messages.push(message)?;
        }
    }
    Ok(())
}
