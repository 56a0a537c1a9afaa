//! A replica as a job: it serves until every client is done.
ghost use Rattle.std.specs.Prelude.{◌≡◌, ◌+◌, ◌^◌, ◌<◌, ◌≤◌, true, false, [], ◌∷◌, IfOk};
ghost use Rattle.std.specs.Arc.{arc_value};
ghost use Rattle.std.specs.List.{list_all};
ghost use Rattle.stale_model.specs.Journals.{is_repair as is_a_repair};
ghost use Rattle.bench_run.specs.declared.job.Caller.{Caller};
ghost use Rattle.bench_run.specs.Jobs.{CanServe, IsServedOut, with_replies};
ghost use Rattle.bench_run.specs.JobSteps.{view_of, admits_now, IsFreshJob, IsReadyJob, IsServedOne, IsMarkedDone};

use audit_ports::Job;
use post_box::{PostBox, SenderPass, TakerPass};
use quorum_client::Note;
use replica_node::Replica;
use stale_model::{Ask, Memory, Reply, Request, Settings};
use std::alloc::Global;
use std::marker::Model;
use std::sync::{Arc, Wait};
use std::thread;
use ticket_clock::{Clock, Seat};

/// The way of a replica to one client.
#[derive(Drop)]
pub struct ReplyRoute {
    /// The inbox of the client.
    pub to: Arc<PostBox<Reply>>,
    /// The replica's pass of this box.
    pub pass: SenderPass<Reply>,
}

/// A replica that has served, with its seat and its passes.
#[derive(Drop)]
pub struct BenchEnd {
    pub replica: Replica,
    /// Its seat, with the tickets at which it served.
    pub seat: Seat,
    /// The taker of its inbox.
    pub taker: TakerPass<Note>,
    /// Its routes, the one to client k at place k.
    pub routes: Vec<ReplyRoute>,
}

// What a replica keeps of a client.
#[derive(Clone, Copy)]
struct Caller {
    // How many replies it was sent.
    answered: u32,
    done: bool,
}

/// A replica with all that it needs to serve, but for the runtime.
#[derive(Drop)]
pub(crate) struct JobParts {
    clock: Arc<Clock>,
    settings: Settings,
    replica: Replica,
    seat: Seat,
    inbox: Arc<PostBox<Note>>,
    taker: TakerPass<Note>,
    routes: Vec<ReplyRoute>,
    // By client.
    callers: Vec<Caller>,
}

/// A replica that serves until every client is done. A contract sees the settings and the clock of the run, the
/// replica with its seat, its inbox with the taker of it, and its routes by client.
#[derive(Drop)]
pub struct BenchJob<R> {
    rt: R,
    parts: JobParts,
}

impl<R> Model for BenchJob<R> {
    ghost use Rattle.bench_run.specs.Jobs.{JobView};

    ghost Value = { JobView };

    ghost use Rattle.bench_run.specs.JobSteps.{view_of, IsFreshJob};

    ghost view = { λ j. view_of j.parts };

    ghost invariant = { λ j. IsFreshJob j.parts };
}

impl<R> BenchJob<R> {
    /// A job of these parts. It takes no memory.
    pub(crate) fn new(rt: R, parts: JobParts) -> BenchJob<R>
        requires { IsFreshJob parts }
        ensures { result ≡ view_of parts }
    {
        BenchJob { rt, parts }
    }
}

impl<R: Wait + Send + Copy> Job for BenchJob<R> {
    type Out = BenchEnd;

    ghost use Rattle.bench_run.specs.Jobs.{CanServe, IsServedOut};

    ghost number = { λ j. j.replica.number };

    ghost can_run = { CanServe };

    ghost ends = { IsServedOut };

    // The replica's number.
    fn mark(&self) -> u32 {
        self.parts.replica.number()
    }

    // Serves until every client is done.
    fn run(self) -> BenchEnd {
        let BenchJob { rt, parts } = self;
        parts.run(&rt)
    }
}

impl JobParts {
    /// The parts of a job that has served nothing. It takes memory for what the replica keeps of each client; the only
    /// error is want of it.
    pub(crate) fn new(
        alloc: Global,
        clock: Arc<Clock>,
        settings: Settings,
        replica: Replica,
        seat: Seat,
        inbox: Arc<PostBox<Note>>,
        taker: TakerPass<Note>,
        routes: Vec<ReplyRoute>,
    ) -> Result<JobParts, Memory>
        ensures view { IfOk result (λ parts. view_of parts ≡ record {
          settings = settings;
          clock = arc_value clock;
          replica = replica;
          seat = seat;
          inbox = arc_value inbox;
          taker = taker;
          routes = routes.items;
        }) }
        ensures fresh { IfOk result IsFreshJob }
    {
        let nobody = Caller {
            answered: 0,
            done: false,
        };
        let callers = vec![in alloc; nobody; settings.clients as usize].map_err(|_| Memory)?;
        Ok(JobParts {
            clock,
            settings,
            replica,
            seat,
            inbox,
            taker,
            routes,
            callers,
        })
    }

    // Serves until every client is done.
    fn run<R: Wait>(mut self, rt: &R) -> BenchEnd
        requires fresh { IsFreshJob self }
        requires can { CanServe (view_of self) }
        ensures { IsServedOut (view_of self) result }
    {
        for _ in rt.forever() {
            match self.inbox.take(rt, &mut self.taker) {
                Some(Note::Ask(request)) => self.take_request(rt, request),
                Some(Note::Done { client }) => {
                    self.mark_done(client);
                    if self.is_all_done() {
                        return self.end();
                    }
                }
                None => thread::yield_now(),
            }
        }
        unreachable!()
    }

    // Serves a request where it admits it, and drops it else.
    fn take_request<R: Wait>(&mut self, rt: &R, request: Request)
        requires ready { IsReadyJob self.old }
        ensures served { admits_now self.old request ≡ true → IsServedOne self.old self.new request }
        ensures dropped { admits_now self.old request ≡ false → self.new ≡ self.old }
    {
        if self.admits(&request) {
            self.serve(rt, request);
        }
    }

    // Whether it serves a request: it is of the run, a place is left, and its client has had fewer replies than it
    // makes calls. A repair gets no reply.
    fn admits(&self, request: &Request) -> bool
        requires ready { IsReadyJob self.now }
        ensures { result ≡ admits_now self.now request.now }
    {
        request.client < self.settings.clients
            && request.key < self.settings.keys
            && self.replica.has_room()
            && (is_repair(request.ask)
                || self.callers[request.client as usize].answered < self.settings.calls)
    }

    // Serves a request that it admits, and sends the reply to its client, but of a repair none.
    fn serve<R: Wait>(&mut self, rt: &R, request: Request)
        requires ready { IsReadyJob self.old }
        requires admitted { admits_now self.old request ≡ true }
        ensures { IsServedOne self.old self.new request }
    {
        self.clock.await_past(rt, &mut self.seat, request.start);
        let reply = self.replica.serve(&self.clock, &mut self.seat, request);
        if !is_repair(request.ask) {
            let client = request.client as usize;
            send_reply(
                rt,
                &mut self.routes[client],
                &mut self.callers[client],
                reply,
            );
        }
    }

    // Marks a client as done. One that is not of the run is ignored.
    fn mark_done(&mut self, client: u32)
        ensures { IsMarkedDone self.old self.new client }
    {
        let place = client as usize;
        if place < self.callers.len() {
            self.callers[place].done = true;
        }
    }

    // Whether every client is done.
    fn is_all_done(&self) -> bool
        ensures { result ≡ list_all (λ c. c.done) self.now.callers.items }
    {
        self.callers.iter().all(|caller| caller.done)
    }

    // What it leaves when it ends.
    fn end(self) -> BenchEnd
        ensures { result ≡ record {
          replica = self.replica;
          seat = self.seat;
          taker = self.taker;
          routes = self.routes;
        } }
    {
        BenchEnd {
            replica: self.replica,
            seat: self.seat,
            taker: self.taker,
            routes: self.routes,
        }
    }
}

// Sends a reply, and counts it.
fn send_reply<R: Wait>(rt: &R, route: &mut ReplyRoute, caller: &mut Caller, reply: Reply)
    requires own { route.old.pass.box ≡ arc_value route.old.to }
    requires number { route.old.pass.number ≡ reply.replica }
    requires budget { 1 ≤ route.old.pass.budget }
    requires few { caller.old.answered + 1 < 2 ^ 32 }
    ensures route { route.new ≡ with_replies (reply ∷ []) route.old }
    ensures caller { caller.new ≡ record caller.old { answered = caller.old.answered + 1 } }
{
    route.to.send(rt, &mut route.pass, reply);
    caller.answered += 1;
}

// Whether a request is a repair.
fn is_repair(ask: Ask) -> bool
    ensures { result ≡ is_a_repair ask }
{
    match ask {
        Ask::Read | Ask::Write { .. } => false,
        Ask::Repair { .. } => true,
    }
}
