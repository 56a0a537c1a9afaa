//! A client, and its calls.
ghost use Rattle.std.specs.Prelude.{◌≡◌, ◌+◌, ◌*◌, ◌<◌, ◌≤◌, [], ◌∷◌, length, map, All, slice_index_or, vec_len};
ghost use Rattle.std.specs.Arc.{arc_value};
ghost use Rattle.stale_model.specs.declared.Kind.TheVariants.{Read, Write};
ghost use Rattle.stale_model.specs.Settings.{AreSettings};
ghost use Rattle.stale_model.specs.Calls.{ask_of, taken_by, freshest as freshest_of};
ghost use Rattle.quorum_client.specs.declared.letters.Note.TheVariants.{Done};
ghost use Rattle.quorum_client.specs.Routes.{IsReadyRoute, IsRepairedOn, with_sent};
ghost use Rattle.quorum_client.specs.Clients.{IsCalled};
ghost use Rattle.quorum_client.specs.Parts.{view_of, IsReady, IsRound};

use crate::gather::{await_all, freshest, is_stale, take_quorum};
use crate::letters::{Note, Route, send_all, send_one};
use audit_ports::Gate;
use post_box::{PostBox, TakerPass};
use stale_model::{Ask, Entry, Kind, List, PlanCall, Reply, Request, Settings, Took};
use std::marker::Model;
use std::sync::{Arc, Wait};
use ticket_clock::{Clock, Seat};

// A client inside.
#[derive(Drop)]
struct Parts {
    number: u32,
    // How many calls each client makes.
    calls: u32,
    read_quorum: u32,
    write_quorum: u32,
    // All planned calls of the client; it has made the first ones.
    plan: List<PlanCall>,
    made: u32,
    routes: Vec<Route>,
    inbox: Arc<PostBox<Reply>>,
    taker: TakerPass<Reply>,
    seat: Seat,
}

/// A client of the store, with its planned calls. A contract sees its number, how many calls each
/// client makes, its quorums, the planned calls that are left, how many it has made, its routes by
/// replica, its inbox, the taker of it, and its seat.
#[derive(Drop)]
pub struct Client {
    parts: Parts,
}

impl Model for Client {
    ghost use Rattle.quorum_client.specs.Clients.{ClientView};

    ghost Value = { ClientView };

    ghost use Rattle.quorum_client.specs.Parts.{view_of, IsReady};

    ghost view = { λ c. view_of c.parts };

    ghost invariant = { λ c. IsReady c.parts };
}

/// The passes of a client that has made its calls.
#[derive(Drop)]
pub struct ClientEnd {
    /// Its seat, with all tickets that it drew.
    pub seat: Seat,
    /// Its routes, the one to replica k at place k.
    pub routes: List<Route>,
    /// The taker of its inbox.
    pub taker: TakerPass<Reply>,
}

impl Client {
    /// A client of this number, counted from 0, with its planned calls and a route to each replica,
    /// by the replica's number. Replies come to its inbox. The seat is of the clock of the run.
    pub fn new(
        number: u32,
        settings: &Settings,
        calls: List<PlanCall>,
        routes: Vec<Route>,
        inbox: Arc<PostBox<Reply>>,
        taker: TakerPass<Reply>,
        seat: Seat,
    ) -> Client
        requires settings { AreSettings settings.now }
        requires number { number < settings.now.clients }
        requires calls { length calls ≤ settings.now.calls }
        requires replicas { vec_len routes ≡ settings.now.replicas }
        requires routes { All (λ r. IsReadyRoute number (2 * length calls + 1) r) routes.items }
        requires inbox { taker.box ≡ arc_value inbox }
        requires none { taker.taken ≡ [] }
        requires left { 2 * length calls ≤ seat.left }
        ensures { result ≡ record {
          number = number;
          calls = settings.now.calls;
          read_quorum = settings.now.read_quorum;
          write_quorum = settings.now.write_quorum;
          left = calls;
          made = 0;
          routes = routes.items;
          inbox = arc_value inbox;
          taker = taker;
          seat = seat;
        } }
    {
        Client {
            parts: Parts {
                number,
                calls: settings.calls,
                read_quorum: settings.read_quorum,
                write_quorum: settings.write_quorum,
                plan: calls,
                made: 0,
                routes,
                inbox,
                taker,
                seat,
            },
        }
    }

    /// How many planned calls are left.
    pub fn left(&self) -> u32
        ensures { result ≡ length self.now.left }
    {
        self.parts.plan.as_slice().len() as u32 - self.parts.made
    }

    /// Makes the next planned call, and gives its entry. It takes no memory. It sends its request to
    /// every replica, takes replies until as many replicas have replied as the quorum says, and
    /// waits until the clock has passed their serve tickets before it draws its finish. A read then
    /// sends the freshest pair to each replica whose reply is older. It enters the gate before all
    /// that, and leaves it after, with the number of the call among those of all clients: the
    /// client's number times the calls of each client, plus its own number, counted from 1.
    pub fn call<R: Wait, G: Gate>(&mut self, rt: &R, clock: &Clock, gate: &G) -> Entry
        requires own { self.old.seat.clock ≡ clock.now.id }
        requires left { 0 < length self.old.left }
        ensures called { IsCalled self.old self.new result }
    {
        let piece = self.parts.number * self.parts.calls + self.parts.made + 1;
        gate.enter(piece);
        let entry = self.parts.make(rt, clock);
        gate.leave(piece);
        entry
    }

    /// Tells every replica that the client sends no more, and gives back its passes.
    pub fn close<R: Wait>(self, rt: &R) -> ClientEnd
        requires { self.left ≡ [] }
        ensures seat { result.seat ≡ self.seat }
        ensures taker { result.taker ≡ self.taker }
        ensures routes { result.routes ≡ map (with_sent (Done self.number ∷ [])) self.routes }
    {
        let Client { parts } = self;
        let mut routes = parts.routes;
        let note = Note::Done {
            client: parts.number,
        };
        send_all(rt, &mut routes, note);
        ClientEnd {
            seat: parts.seat,
            routes: List::from_vec(routes),
            taker: parts.taker,
        }
    }
}

impl Parts {
    // Makes the next planned call.
    fn make<R: Wait>(&mut self, rt: &R, clock: &Clock) -> Entry
        requires own { self.old.seat.clock ≡ clock.now.id }
        requires ready { IsReady self.old }
        requires left { self.old.made < length self.old.plan }
        ensures ready { IsReady self.new }
        ensures called { IsCalled (view_of self.old) (view_of self.new) result }
    {
        let call = self.plan.as_slice()[self.made as usize];
        match call.kind {
            Kind::Read => self.read(rt, clock, &call),
            Kind::Write => self.write(rt, clock, &call),
        }
    }

    fn read<R: Wait>(&mut self, rt: &R, clock: &Clock, call: &PlanCall) -> Entry
        requires own { self.old.seat.clock ≡ clock.now.id }
        requires ready { IsReady self.old }
        requires left { self.old.made < length self.old.plan }
        requires next { slice_index_or self.old.plan self.old.made call.now ≡ call.now }
        requires kind { call.now.kind ≡ Read }
        ensures ready { IsReady self.new }
        ensures called { IsCalled (view_of self.old) (view_of self.new) result }
    {
        let quorum = self.read_quorum;
        let mut entry = self.round(rt, clock, call, quorum);
        let best = freshest(&entry.took[..entry.took_count as usize]);
        entry.value = best.value;
        send_repairs(rt, &mut self.routes, &entry, &best);
        entry
    }

    fn write<R: Wait>(&mut self, rt: &R, clock: &Clock, call: &PlanCall) -> Entry
        requires own { self.old.seat.clock ≡ clock.now.id }
        requires ready { IsReady self.old }
        requires left { self.old.made < length self.old.plan }
        requires next { slice_index_or self.old.plan self.old.made call.now ≡ call.now }
        requires kind { call.now.kind ≡ Write }
        ensures ready { IsReady self.new }
        ensures called { IsCalled (view_of self.old) (view_of self.new) result }
    {
        let quorum = self.write_quorum;
        self.round(rt, clock, call, quorum)
    }

    // Asks every replica, and takes the replies of a quorum. The entry has the planned value.
    fn round<R: Wait>(&mut self, rt: &R, clock: &Clock, call: &PlanCall, quorum: u32) -> Entry
        requires own { self.old.seat.clock ≡ clock.now.id }
        requires ready { IsReady self.old }
        requires left { self.old.made < length self.old.plan }
        requires few { quorum ≤ 7 }
        ensures { IsRound self.old self.new call.now quorum result }
    {
        let seq = self.made + 1;
        let replicas = self.routes.len() as u32;
        let start = clock.draw(&mut self.seat);
        let request = request_of(self.number, seq, start, call);
        send_all(rt, &mut self.routes, Note::Ask(request));
        let taken = take_quorum(rt, &self.inbox, &mut self.taker, seq, replicas, quorum);
        await_all(rt, clock, &mut self.seat, &taken);
        let finish = clock.draw(&mut self.seat);
        self.made = seq;
        Entry {
            client: self.number,
            seq,
            kind: call.kind,
            key: call.key,
            value: call.value,
            start,
            finish,
            took: taken.took,
            took_count: taken.count,
        }
    }
}

// What a call asks of every replica.
fn request_of(client: u32, seq: u32, start: u64, call: &PlanCall) -> Request
    ensures { result ≡ record {
      client = client;
      seq = seq;
      start = start;
      key = call.now.key;
      ask = ask_of call.now.kind call.now.value;
    } }
{
    let ask = match call.kind {
        Kind::Read => Ask::Read,
        Kind::Write => Ask::Write { value: call.value },
    };
    Request {
        client,
        seq,
        start,
        key: call.key,
        ask,
    }
}

// Sends the freshest pair of a read to each replica whose reply is older.
fn send_repairs<R: Wait>(rt: &R, routes: &mut Vec<Route>, entry: &Entry, best: &Took)
    requires ready { All (λ r. IsReadyRoute entry.now.client 1 r) routes.old.items }
    requires few { vec_len routes.old ≤ 7 }
    requires count { entry.now.took_count ≤ 7 }
    requires best { best.now ≡ freshest_of (taken_by entry.now) }
    ensures { IsRepairedOn entry.now routes.old.items routes.new.items }
{
    let note = Note::Ask(Request {
        client: entry.client,
        seq: entry.seq,
        start: entry.finish,
        key: entry.key,
        ask: Ask::Repair {
            stamp: best.stamp,
            value: best.value,
        },
    });
    let taken = &entry.took[..entry.took_count as usize];
    for k in 0..routes.len() {
        if is_stale(taken, k as u32, best.stamp) {
            send_one(rt, &mut routes[k], note);
        }
    }
}
