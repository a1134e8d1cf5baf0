//! What events leave: the place, how far each call is, and the time.

ghost use Rattle.std.specs.Prelude.{◌≡◌, ◌≤◌, IfOk, OnOk};
ghost use Rattle.meet_overlap.specs.Places.{world_of};
ghost use Rattle.meet_overlap.specs.Search.{start, world_after};

use crate::calls::Stage;
use crate::fits::behind;
use crate::line::Line;
use crate::making::make;
use crate::place::{Place, copied};
use crate::stages::{Window, all_ahead, copied_window, put_stage, shift, stage};
use meet_tickets::{Deed, Kind, Record};
use std::alloc::{AllocError, Global};

/// What the events so far left.
#[derive(Drop)]
pub(crate) struct Reached {
    pub(crate) place: Place,
    pub(crate) window: Window,
    pub(crate) time: u64,
}

/// Before the first event.
pub(crate) fn beginning(alloc: Global) -> Reached
    ensures { world_of result ≡ start }
{
    Reached {
        place: Place {
            last: 0,
            line: Line::empty(alloc),
            holds: Vec::new(alloc),
            flags: Vec::new(alloc),
        },
        window: all_ahead(alloc),
        time: 0,
    }
}

/// What a record of the call of this number leaves. Fails only if an allocation fails.
pub(crate) fn after(
    alloc: Global,
    kind: Kind,
    reached: &Reached,
    number: usize,
    time: u64,
    entry: &Record<Deed>,
) -> Result<Reached, AllocError>
    requires { reached.now.window.first ≤ number }
    ensures { IfOk result (λ next. world_of next
        ≡ world_after kind (world_of reached.now) (record { call = number; time = time; entry = entry.now })) }
{
    let mut place = copied(alloc, &reached.place)?;
    let mut window = copied_window(alloc, &reached.window)?;
    let was = stage(&window, number);
    put_stage(&mut window, number, behind(was, entry))?;
    shift(&mut window);
    make(kind, &mut place, *entry)?;
    Ok(Reached {
        place,
        window,
        time,
    })
}

/// The call of this number makes a record. Fails only if an allocation fails.
pub(crate) fn advance(
    kind: Kind,
    reached: &mut Reached,
    number: usize,
    time: u64,
    entry: &Record<Deed>,
) -> Result<(), AllocError>
    requires { reached.old.window.first ≤ number }
    ensures { OnOk result (world_of reached.new
        ≡ world_after kind (world_of reached.old) (record { call = number; time = time; entry = entry.now })) }
{
    let was = stage(&reached.window, number);
    put_stage(&mut reached.window, number, behind(was, entry))?;
    make(kind, &mut reached.place, *entry)?;
    reached.time = time;
    Ok(())
}
