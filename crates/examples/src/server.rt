//! A server: one thread listens, and hands connections to twelve workers over a queue with four seats. A thread that
//! makes a call acquires a seat from a pool, and releases it after the call. The connections are made up.
mod serving;

ghost use Rattle.std.specs.Prelude.{◌≡◌, vec_len};
ghost use Rattle.ibisbookcase.specs.Ledgers.{AreOf};
ghost use Rattle.ibisbookcase.specs.Limits.{most_records};

use self::serving::{Handover, Server, listen, serve};
use ibisbookcase::queues::{Ledgers, NewQueue, ParkGate, QueueFault, Refusal, SeatPool};
use std::alloc::Global;
use std::marker::Brand;
use std::sync::Wait;
use std::sync::atomic::{AtomicBool, AtomicU64, Ordering};
use std::thread;
use std::thread::Threads;
use std::time::Clock;

/// How many workers there are, how many seats, and how many connections come.
const WORKERS: u64 = 12;

const SEATS: u64 = 4;

const CONNECTIONS: u64 = 30;

/// The outcome.
#[derive(Drop)]
pub struct Served {
    pub connections: u64,
    pub sum: u64,
    pub left: usize,
}

/// All threads of a server, until each has ended.
fn run<N, R>(rt: &R, server: &Server<N>) -> Result<(), Refusal>
where
    N: Ledgers + Send + Sync,
    R: Threads + Wait + Clock + Sync,
{
    thread::scope(thread::scope_env(), rt, |scope| {
        let mut workers = 0u64;
        for _ in 0..WORKERS {
            if scope.spawn(move || serve(rt, server)).is_ok() {
                workers = workers.saturating_add(1);
            }
        }
        let listened = if workers == 0 {
            Err(Refusal::NoThread)
        } else {
            listen(rt, server, CONNECTIONS)
        };
        server.closing.store(true, Ordering::SeqCst); // the workers end
        listened
    })
}

/// A server over a queue of these parts.
fn open_server<N, R>(rt: &R, alloc: Global, parts: NewQueue<ParkGate>) -> Result<Served, Refusal>
where
    N: Ledgers + Send + Sync,
    R: Threads + Wait + Clock + Sync,
    requires ledgers { AreOf N.name N.folds N.moments N.parts parts.blanks }
    requires one_each { N.parts ≡ vec_len parts.gates }
    requires cap { N.cap ≡ most_records }
{
    let (queue, seats) = match Handover::<N>::new(alloc, parts) {
        Ok(made) => made,
        Err(refused) => return Err(refused.into_why()),
    };
    let pool = match SeatPool::new(alloc, seats) {
        Ok(pool) => pool,
        Err(refused) => return Err(refused.into_why()),
    };
    let server = Server {
        queue,
        pool,
        closing: AtomicBool::new(false),
        served: AtomicU64::new(0),
        sum: AtomicU64::new(0),
    };
    run(rt, &server)?;
    let Server {
        queue,
        pool,
        closing: _,
        served,
        sum,
    } = server;
    let closed = queue
        .close(alloc, pool.into_seats())
        .map_err(QueueFault::into_why)?;
    Ok(Served {
        connections: served.into_inner(),
        sum: sum.into_inner(),
        left: closed.left.len(),
    })
}

/// Serves all connections.
pub fn serve_connections<R>(rt: &R, alloc: Global) -> Result<Served, Refusal>
where
    R: Threads + Wait + Clock + Sync,
{
    let parts = NewQueue::parked(alloc, SEATS)?;
    open_server::<Brand, R>(rt, alloc, parts)
}

/// Serves the connections, and prints how many there were.
pub fn print_served<R>(rt: &R, alloc: Global) -> Result<(), Refusal>
where
    R: Threads + Wait + Clock + Print + Sync,
{
    let served = serve_connections(rt, alloc)?;
    println!(rt;
        "{} connections were served, their numbers add up to {}, {} left",
        served.connections, served.sum, served.left
    )
    .map_err(|_| Refusal::WriteFault)
}
