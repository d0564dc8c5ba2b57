//! What becomes of a built-in call, by its mode and the number of its arguments.

ghost use Rattle.std.specs.Prelude.{◌≡◌};
ghost use Rattle.typing_rules.specs.Outcomes as spec;

use typing_rules::words::{BuiltIn, Mode, Outcome};
use vera_ast::typed::modes::{MailboxMode, SyncMode, TriggerMode};
use vera_ast::{BuiltInFunction, BuiltInTask, WaitingFunction};

/// What becomes of `mailbox_get`.
fn mailbox_get(mode: Option<Mode>, count: usize) -> Outcome
    ensures { result ≡ spec.mailbox_get mode count }
{
    match mode {
        Some(Mode::Wait) => Outcome::MayWait(WaitingFunction::MailboxGet(MailboxMode::Take)),
        Some(Mode::CopyWait) => Outcome::MayWait(WaitingFunction::MailboxGet(MailboxMode::Copy)),
        Some(Mode::CopyNoWait) => Outcome::Gives(BuiltInFunction::MailboxGet(MailboxMode::Copy)),
        _ if count == 1 => Outcome::Gives(BuiltInFunction::MailboxSize),
        _ => Outcome::Gives(BuiltInFunction::MailboxGet(MailboxMode::Take)),
    }
}

/// What `alloc` gives.
fn alloc(mode: Option<Mode>) -> BuiltInFunction
    ensures { spec.outcome BuiltIn.Alloc mode 0 ≡ Outcome.Gives result }
{
    match mode {
        Some(Mode::Semaphore) => BuiltInFunction::AllocSemaphore,
        Some(Mode::Mailbox) => BuiltInFunction::AllocMailbox,
        _ => BuiltInFunction::AllocRegion,
    }
}

/// What becomes of `sync`.
fn sync(mode: Option<Mode>) -> Outcome
    ensures { spec.outcome BuiltIn.Sync mode 0 ≡ result }
{
    match mode {
        Some(Mode::Check) => Outcome::Gives(BuiltInFunction::SyncCheck),
        Some(Mode::All) => Outcome::MayWait(WaitingFunction::Sync(SyncMode::All)),
        Some(Mode::Any) => Outcome::MayWait(WaitingFunction::Sync(SyncMode::Any)),
        _ => Outcome::MayWait(WaitingFunction::Sync(SyncMode::Order)),
    }
}

/// How `trigger` sets its events.
fn trigger(mode: Option<Mode>) -> TriggerMode
    ensures { spec.outcome BuiltIn.Trigger mode 0 ≡ Outcome.Does (BuiltInTask.Trigger result) }
{
    match mode {
        Some(Mode::OneBlast) => TriggerMode::OneBlast,
        Some(Mode::HandShake) => TriggerMode::HandShake,
        Some(Mode::On) => TriggerMode::On,
        Some(Mode::Off) => TriggerMode::Off,
        _ => TriggerMode::OneShot,
    }
}

/// What becomes of a call with so many arguments, its mode word not counted.
pub fn outcome(call: BuiltIn, mode: Option<Mode>, count: usize) -> Outcome
    ensures { result ≡ spec.outcome call mode count }
{
    match (call, mode) {
        (BuiltIn::Printf, _) => Outcome::Prints,
        (BuiltIn::Sprintf, _) => Outcome::PrintsInto,
        (BuiltIn::Exit, _) => Outcome::Does(BuiltInTask::Exit),
        (BuiltIn::Flag, _) => Outcome::Gives(BuiltInFunction::Flag),
        (BuiltIn::GetCycle, _) => Outcome::Gives(BuiltInFunction::GetCycle),
        (BuiltIn::Alloc, _) => Outcome::Gives(alloc(mode)),
        (BuiltIn::SemaphoreGet, Some(Mode::Wait)) => {
            Outcome::MayWait(WaitingFunction::SemaphoreGet)
        }
        (BuiltIn::SemaphoreGet, _) => Outcome::Gives(BuiltInFunction::SemaphoreGet),
        (BuiltIn::SemaphorePut, _) => Outcome::Does(BuiltInTask::SemaphorePut),
        (BuiltIn::MailboxPut, _) => Outcome::Does(BuiltInTask::MailboxPut),
        (BuiltIn::MailboxGet, _) => mailbox_get(mode, count),
        (BuiltIn::RegionEnter, Some(Mode::Wait)) => Outcome::MayWait(WaitingFunction::RegionEnter),
        (BuiltIn::RegionEnter, _) => Outcome::Gives(BuiltInFunction::RegionEnter),
        (BuiltIn::RegionExit, _) => Outcome::Does(BuiltInTask::RegionExit),
        (BuiltIn::Sync, _) => sync(mode),
        (BuiltIn::Trigger, _) => Outcome::Does(BuiltInTask::Trigger(trigger(mode))),
        (BuiltIn::WaitChild, _) => Outcome::Does(BuiltInTask::WaitChild),
        (BuiltIn::WaitVar, _) => Outcome::Does(BuiltInTask::WaitVar),
        (BuiltIn::CastAssign, Some(Mode::Check)) => Outcome::Gives(BuiltInFunction::CastAssign),
        (BuiltIn::CastAssign, _) => Outcome::Does(BuiltInTask::CastAssign),
    }
}

/// Whether it gives a number.
pub fn gives_a_number(outcome: Outcome) -> bool
    ensures { result ≡ spec.gives_a_number outcome }
{
    matches!(outcome, Outcome::Gives(_) | Outcome::MayWait(_))
}

/// Whether it may wait.
pub fn may_wait(outcome: Outcome) -> bool
    ensures { result ≡ spec.may_wait outcome }
{
    matches!(outcome, Outcome::MayWait(_))
}

/// Whether no function has it: what may wait, and what ends a run or waits for threads or variables.
pub fn is_for_tasks(outcome: Outcome) -> bool
    ensures { result ≡ spec.is_for_tasks outcome }
{
    matches!(
        outcome,
        Outcome::MayWait(_)
            | Outcome::Does(BuiltInTask::Exit | BuiltInTask::WaitChild | BuiltInTask::WaitVar)
    )
}
