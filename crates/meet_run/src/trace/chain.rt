//! The check of the chapters of a chain, one after another.

ghost use Rattle.std.specs.Prelude.{◌≡◌, ◌<◌, ◌+◌, ◌^◌, ◌∷◌, [], ◌++◌, List, IfOk, IfErr, OnOk};
ghost use Rattle.meet_tickets.specs.declared.refusals.Refusal.TheVariants.{Memory};
ghost use Rattle.meet_run.specs.Tracing.Chapters.{Chapter, IsOf, IsFoundOfAll, HasRead, TellsWrong};
ghost use Rattle.meet_run.specs.Tracing.Chapters.{wrong_of, broken_at, wrong_text, broken_line};

use crate::text::wording::{push_last_line, push_numbered};
use crate::trace::check::ReadTrace;
use crate::trace::wording::push_illegal;
use meet_history::{CheckFault, Checker, Why};
use meet_tickets::{Kind, Refusal};
use std::alloc::{AllocError, Global};

/// What is wrong with a chapter after those before it.
#[derive(Clone, Copy, PartialEq, Eq, Debug)]
pub enum ChapterFault {
    /// Its trace names another place.
    OtherPlace,
    /// Its base doesn't stand for those before it.
    OtherBase,
    /// The record of number `place`, from 1 and with those of the base, is its first that can't stand, for the reason
    /// `why`.
    Illegal { place: u64, why: Why },
}

/// The first chapter that can't follow those before it, by its number from 1.
#[derive(Clone, Copy, PartialEq, Eq, Debug)]
pub(crate) struct Broken {
    chapter: u64,
    why: ChapterFault,
}

/// What is known of the chapters that were read: the last one where they are one legal history, or which is wrong.
#[derive(Drop)]
pub(crate) struct Chain {
    last: ReadTrace,
    chapters: u64,
    fault: Option<Broken>,
}

/// What is wrong with a chapter's own records, if anything is. Fails only if an allocation fails.
fn wrong_in(checker: &Checker) -> Result<Option<ChapterFault>, Refusal>
    ensures wrong { IfOk result (λ wrong. wrong ≡ wrong_of checker.now.fault) }
    ensures memory { IfErr result (λ why. why ≡ Memory) }
{
    match checker.standing() {
        Ok(_) => Ok(None),
        Err(CheckFault::Illegal { place, why }) => Ok(Some(ChapterFault::Illegal { place, why })),
        Err(CheckFault::Memory) => Err(Refusal::Memory),
    }
}

/// What is wrong with a chapter behind another one, if anything is. Fails only if an allocation fails.
fn wrong_behind(
    alloc: Global,
    last: &ReadTrace,
    next: &ReadTrace,
) -> Result<Option<ChapterFault>, Refusal>
    ensures wrong { IfOk result (TellsWrong last.now next.now) }
    ensures memory { IfErr result (λ why. why ≡ Memory) }
{
    if last.kind != next.kind {
        return Ok(Some(ChapterFault::OtherPlace));
    }
    match last.checker.ends_at(alloc, &next.base) {
        Ok(true) => wrong_in(&next.checker),
        Ok(false) => Ok(Some(ChapterFault::OtherBase)),
        Err(_) => Err(Refusal::Memory),
    }
}

/// What is wrong with the chapter of this number, if anything is.
fn broken_at(chapter: u64, wrong: Option<ChapterFault>) -> Option<Broken>
    ensures { result ≡ broken_at chapter wrong }
{
    match wrong {
        None => None,
        Some(why) => Some(Broken { chapter, why }),
    }
}

impl Chain {
    /// A chain that begins with this chapter. Fails only if an allocation fails.
    pub(crate) fn begin(trace: ReadTrace) -> Result<Self, Refusal>
        ensures read { IfOk result (λ chain. (c : Chapter) → IsOf trace c → HasRead chain (c ∷ [])) }
        ensures many { IfOk result (λ chain. chain.chapters ≡ 1) }
        ensures memory { IfErr result (λ why. why ≡ Memory) }
    {
        let wrong = wrong_in(&trace.checker)?;
        Ok(Chain {
            last: trace,
            chapters: 1,
            fault: broken_at(1, wrong),
        })
    }

    /// The chain with this chapter behind the others. Fails only if an allocation fails.
    pub(crate) fn take(self, alloc: Global, trace: ReadTrace) -> Result<Self, Refusal>
        requires few { self.chapters + 1 < 2 ^ 64 }
        ensures read { IfOk result (λ chain. (chapters : List Chapter) (c : Chapter) → HasRead self chapters
            → IsOf trace c → HasRead chain (chapters ++ c ∷ [])) }
        ensures many { IfOk result (λ chain. chain.chapters ≡ self.chapters + 1) }
        ensures memory { IfErr result (λ why. why ≡ Memory) }
    {
        let Chain {
            last,
            chapters,
            fault,
        } = self;
        let chapters = chapters + 1;
        if fault.is_some() {
            return Ok(Chain {
                last,
                chapters,
                fault,
            });
        }
        let wrong = wrong_behind(alloc, &last, &trace)?;
        Ok(Chain {
            last: trace,
            chapters,
            fault: broken_at(chapters, wrong),
        })
    }

    /// Whether the chapters that were read are one legal history, and the line that says so: as that of one trace of
    /// all of them; or which of them can't follow, and why. Fails only if an allocation fails.
    pub(crate) fn found(&self, alloc: Global) -> Result<(bool, Vec<u8>), Refusal>
        ensures found { IfOk result (λ found. (chapters : List Chapter) → HasRead self.now chapters
            → IsFoundOfAll chapters found.0 found.1.items) }
        ensures memory { IfErr result (λ why. why ≡ Memory) }
    {
        let mut text = Vec::new(alloc);
        if let Some(broken) = self.fault {
            return match push_broken(&mut text, broken) {
                Ok(()) => Ok((false, text)),
                Err(_) => Err(Refusal::Memory),
            };
        }
        let Ok(standing) = self.last.checker.standing() else {
            return Err(Refusal::Memory);
        };
        match push_last_line(&mut text, self.last.count, standing) {
            Ok(()) => Ok((true, text)),
            Err(_) => Err(Refusal::Memory),
        }
    }
}

/// Appends what is wrong with a chapter.
#[tactic(auto, unfolding(crate::specs::Tracing::Chapters::wrong_text))]
fn push_wrong(out: &mut Vec<u8>, why: ChapterFault) -> Result<(), AllocError>
    ensures { OnOk result (out.new.items ≡ out.old.items ++ wrong_text why) }
{
    match why {
        ChapterFault::OtherPlace => out.extend_from_slice(b"OtherPlace\n"),
        ChapterFault::OtherBase => out.extend_from_slice(b"OtherBase\n"),
        ChapterFault::Illegal { place, why } => push_illegal(out, place, why),
    }
}

/// Appends the line that names the first chapter that can't follow, and why.
#[tactic(auto, unfolding(crate::specs::Tracing::Chapters::broken_line))]
fn push_broken(out: &mut Vec<u8>, broken: Broken) -> Result<(), AllocError>
    ensures { OnOk result (out.new.items ≡ out.old.items ++ broken_line broken.chapter broken.why) }
{
    push_numbered(out, b"chapter ", broken.chapter)?;
    out.extend_from_slice(b" ")?;
    push_wrong(out, broken.why)
}
