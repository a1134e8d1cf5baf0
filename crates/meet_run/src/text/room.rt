//! The buffer for a text's lines, the only memory that reading a line takes.

ghost use Rattle.std.specs.Prelude.{◌≡◌, ◌<◌, ◌≤◌, [], None, IfOk, IfErr, OnOk};
ghost use Rattle.std.specs.Vec.{vec_capacity};
ghost use Rattle.meet_tickets.specs.declared.refusals.Refusal.TheVariants.{Memory};
ghost use Rattle.meet_run.specs.Scripts.Running.{CannotRead, IsUnread};

use crate::text::faults::{RunFault, cut_short};
use crate::text::reading::LONGEST_LINE;
use meet_tickets::Refusal;
use std::alloc::Global;

/// Allocates the buffer for the lines of a text, if there is a turn to read any.
///
/// # Errors
/// - ReadFault, without a turn, whether or not there is memory.
/// - Memory, if an allocation fails.
pub fn room_for_lines(alloc: Global, turns: u64) -> Result<Vec<u8>, RunFault>
    ensures room { IfOk result (λ line. LONGEST_LINE ≤ vec_capacity line) }
    ensures empty { IfOk result (λ line. line.items ≡ []) }
    ensures turns { OnOk result (0 < turns) }
    ensures spent { turns ≡ 0 → CannotRead result }
    ensures memory { 0 < turns → IfErr result (λ fault. fault.why ≡ Memory) }
    ensures faults { IfErr result (λ fault. IsUnread fault.why × (fault.line ≡ None)) }
{
    if turns == 0 {
        return Err(cut_short(Refusal::ReadFault));
    }
    match Vec::with_capacity(alloc, LONGEST_LINE) {
        Ok(line) => Ok(line),
        Err(_) => Err(cut_short(Refusal::Memory)),
    }
}
