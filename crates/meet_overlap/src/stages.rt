//! How far each call is, as a window: the calls before it are over, those behind it are still to come.

ghost use Rattle.std.specs.Prelude.{◌≡◌, ◌≤◌, ◌<◌, length, IfOk, OnOk};
ghost use Rattle.meet_tickets.specs.BySeat.{put_at};
ghost use Rattle.meet_overlap.specs.Places.{stage_at};

use crate::calls::Stage;
use std::alloc::{AllocError, Global};

/// How far each call is. A history is long, but few of its calls overlap, and only these stand here.
#[derive(Drop)]
pub(crate) struct Window {
    /// How many calls there are before the window. They are over.
    pub(crate) first: usize,
    /// How far those in the window are.
    pub(crate) stages: Vec<Stage>,
}

/// No call has begun.
pub(crate) fn all_ahead(alloc: Global) -> Window
    ensures { (result.first ≡ 0) × (length result.stages.items ≡ 0) }
{
    Window {
        first: 0,
        stages: Vec::new(alloc),
    }
}

/// The same window once more. Fails only if an allocation fails.
pub(crate) fn copied_window(alloc: Global, window: &Window) -> Result<Window, AllocError>
    ensures stages { IfOk result (λ copy. stage_at copy ≡ stage_at window.now) }
    ensures first { IfOk result (λ copy. copy.first ≡ window.now.first) }
{
    let stages = window.stages.as_slice().to_vec(alloc)?;
    Ok(Window {
        first: window.first,
        stages,
    })
}

/// How far the call of this number is.
pub(crate) fn stage(window: &Window, number: usize) -> Stage
    ensures { result ≡ stage_at window.now number }
{
    if number < window.first {
        return Stage::Over;
    }
    let at = number - window.first;
    if at < window.stages.len() {
        window.stages[at]
    } else {
        Stage::Ahead
    }
}

/// Notes how far the call of this number is. Fails only if an allocation fails.
pub(crate) fn put_stage(window: &mut Window, number: usize, stage: Stage) -> Result<(), AllocError>
    requires { window.old.first ≤ number }
    ensures { OnOk result (stage_at window.new ≡ put_at (stage_at window.old) number stage) }
{
    let at = number - window.first;
    while window.stages.len() <= at {
        window.stages.push(Stage::Ahead)?;
    }
    window.stages[at] = stage;
    Ok(())
}

/// Moves the window's begin behind the calls that are over.
pub(crate) fn shift(window: &mut Window)
    ensures { stage_at window.new ≡ stage_at window.old }
{
    while 0 < window.stages.len() {
        if window.first == usize::MAX {
            return;
        }
        match window.stages[0] {
            Stage::Over => {}
            Stage::Ahead => return,
            Stage::Open(_) => return,
        }
        let _over = window.stages.remove(0);
        window.first += 1;
    }
}
