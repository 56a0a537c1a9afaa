//! The boxes of a run, each with what was not split off of its rights, or came back.

use post_box::{PostBox, Whole};
use quorum_client::Note;
use stale_model::Reply;
use std::sync::Arc;

/// The box of a replica.
#[derive(Drop)]
pub(crate) struct NoteBox {
    pub(crate) post: Arc<PostBox<Note>>,
    pub(crate) whole: Whole<Note>,
}

/// The inbox of a client.
#[derive(Drop)]
pub(crate) struct ReplyBox {
    pub(crate) post: Arc<PostBox<Reply>>,
    pub(crate) whole: Whole<Reply>,
}
