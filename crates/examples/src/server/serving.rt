//! What the listener and the workers do.

use ibisbookcase::queues::{
    Deed, End, FairSeats, Ledgers, Marked, ParkGate, Refusal, Seat, SeatPool, SeatRefused,
    SyncQueue,
};
use std::sync::Wait;
use std::sync::atomic::{AtomicBool, AtomicU64, Ordering};
use std::time::Clock;

/// How long a thread waits at the queue before it releases its seat, in milliseconds.
const PATIENCE: u64 = 20;

/// A connection, known by its number. It is made up.
#[derive(Drop)]
pub struct Connection {
    pub number: u64,
}

impl Marked for Connection {
    ghost mark_of = { λ connection. connection.number };

    fn mark(&self) -> u64 {
        self.number
    }
}

/// A synchronous queue in fair mode, over which connections are handed on.
pub type Handover<N> = SyncQueue<Connection, FairSeats<Connection>, ParkGate, N>;

/// What the threads share.
#[derive(Drop)]
pub struct Server<N: Ledgers> {
    pub queue: Handover<N>,
    pub pool: SeatPool<Deed, N>,
    /// Whether no connection comes any more.
    pub closing: AtomicBool,
    /// How many connections were served, and the sum of their numbers.
    pub served: AtomicU64,
    pub sum: AtomicU64,
}

/// Tends the history, and releases the seat.
fn tend_and_release<N: Ledgers, R: Wait>(
    rt: &R,
    server: &Server<N>,
    seat: Seat<Deed, N>,
) -> Result<(), Refusal> {
    match server.queue.tend(rt, seat) {
        Ok(seat) => {
            server.pool.release(rt, seat);
            Ok(())
        }
        Err(refused) => {
            let SeatRefused { why, seat, item: _ } = refused;
            server.pool.release(rt, seat);
            Err(why)
        }
    }
}

/// Acquires a seat, and hands a connection to a worker. It is returned if no worker took it in time.
fn hand<N: Ledgers, R: Wait + Clock>(
    rt: &R,
    server: &Server<N>,
    connection: Connection,
) -> Result<Option<Connection>, Refusal> {
    let seat = server.pool.acquire(rt);
    match server.queue.offer_for(rt, seat, connection, PATIENCE) {
        Ok(offered) => {
            tend_and_release(rt, server, offered.seat)?;
            match offered.end {
                End::TimedOut(back) => Ok(back),
                _ => Ok(None),
            }
        }
        Err(refused) => {
            let SeatRefused { why, seat, item: _ } = refused;
            server.pool.release(rt, seat);
            Err(why)
        }
    }
}

/// Hands on the connections from 1 up to `last`.
pub fn listen<N: Ledgers, R: Wait + Clock>(
    rt: &R,
    server: &Server<N>,
    last: u64,
) -> Result<(), Refusal> {
    for number in 1..=last {
        let mut waiting = Some(Connection { number });
        for _ in rt.forever() {
            match waiting {
                None => break,
                Some(connection) => waiting = hand(rt, server, connection)?,
            }
        }
    }
    Ok(())
}

/// Acquires a seat, and takes a connection, if one comes in time.
fn next<N: Ledgers, R: Wait + Clock>(
    rt: &R,
    server: &Server<N>,
) -> Result<Option<Connection>, Refusal> {
    let seat = server.pool.acquire(rt);
    match server.queue.poll_for(rt, seat, PATIENCE) {
        Ok(polled) => {
            tend_and_release(rt, server, polled.seat)?;
            match polled.end {
                End::Got(_, connection) => Ok(Some(connection)),
                _ => Ok(None),
            }
        }
        Err(refused) => {
            let SeatRefused { why, seat, item: _ } = refused;
            server.pool.release(rt, seat);
            Err(why)
        }
    }
}

/// Serves connections until none comes any more.
pub fn serve<N: Ledgers, R: Wait + Clock>(rt: &R, server: &Server<N>) -> Result<(), Refusal> {
    for _ in rt.forever() {
        let closing = server.closing.load(Ordering::SeqCst);
        match next(rt, server)? {
            Some(connection) => {
                server.served.fetch_add(1, Ordering::SeqCst);
                server.sum.fetch_add(connection.number, Ordering::SeqCst);
            }
            None => {
                if closing {
                    break;
                }
            }
        }
    }
    Ok(())
}
