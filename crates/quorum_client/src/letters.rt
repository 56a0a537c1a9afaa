//! What a client sends to the replicas, and the routes to them.
ghost use Rattle.std.specs.Prelude.{◌≡◌, [], ◌∷◌, map, All};
ghost use Rattle.quorum_client.specs.Letters.{sender_of};
ghost use Rattle.quorum_client.specs.Routes.{IsReadyRoute, with_sent};

use post_box::{Letter, PostBox, SenderPass};
use stale_model::Request;
use std::sync::{Arc, Wait};

/// What a client sends to a replica.
#[derive(Clone, Copy, Debug, PartialEq, Eq)]
pub enum Note {
    /// A request of one of its calls.
    Ask(Request),
    /// That it sends no more.
    Done { client: u32 },
}

impl Letter for Note {
    ghost use Rattle.quorum_client.specs.Letters.{sender_of};

    ghost from = { sender_of };

    // A note is sent by its client.
    fn sender(&self) -> u32 {
        match self {
            Note::Ask(request) => request.client,
            Note::Done { client } => *client,
        }
    }
}

/// The way of a client to one replica.
#[derive(Drop)]
pub struct Route {
    /// The box of the replica.
    pub to: Arc<PostBox<Note>>,
    /// The client's pass of this box.
    pub pass: SenderPass<Note>,
}

/// Sends a note to every replica.
pub(crate) fn send_all<R: Wait>(rt: &R, routes: &mut Vec<Route>, note: Note)
    requires { All (λ r. IsReadyRoute (sender_of note) 1 r) routes.old.items }
    ensures { routes.new.items ≡ map (with_sent (note ∷ [])) routes.old.items }
{
    for route in routes.iter_mut() {
        send_one(rt, route, note);
    }
}

/// Sends a note to one replica.
pub(crate) fn send_one<R: Wait>(rt: &R, route: &mut Route, note: Note)
    requires { IsReadyRoute (sender_of note) 1 route.old }
    ensures { route.new ≡ with_sent (note ∷ []) route.old }
{
    route.to.send(rt, &mut route.pass, note);
}
