//! The built-in calls: their mode words, and how many arguments they take.

ghost use Rattle.std.specs.Prelude.{◌≡◌};
ghost use Rattle.typing_rules.specs.Signatures as spec;

use typing_rules::words::{BuiltIn, Mode};

/// Whether it is one of the call's mode words.
pub fn takes(call: BuiltIn, mode: Mode) -> bool
    ensures { result ≡ spec.takes call mode }
{
    match call {
        BuiltIn::Alloc => matches!(mode, Mode::Semaphore | Mode::Mailbox | Mode::Region),
        BuiltIn::SemaphoreGet | BuiltIn::RegionEnter => matches!(mode, Mode::Wait | Mode::NoWait),
        BuiltIn::MailboxGet => matches!(
            mode,
            Mode::Wait | Mode::NoWait | Mode::CopyWait | Mode::CopyNoWait
        ),
        BuiltIn::Sync => matches!(mode, Mode::All | Mode::Any | Mode::Order | Mode::Check),
        BuiltIn::Trigger => matches!(
            mode,
            Mode::OneShot | Mode::OneBlast | Mode::HandShake | Mode::On | Mode::Off
        ),
        _ => false,
    }
}

/// Whether a call has so many arguments, its mode word not counted.
pub fn counts(call: BuiltIn, mode: Option<Mode>, count: usize) -> bool
    ensures { result ≡ spec.counts (spec.count_of call mode) count }
{
    match (call, mode) {
        (BuiltIn::Flag | BuiltIn::GetCycle | BuiltIn::WaitChild, _) => count == 0,
        (BuiltIn::Exit, _) | (BuiltIn::Sync, Some(Mode::Check)) => count == 1,
        (BuiltIn::Alloc, Some(Mode::Semaphore)) => count == 3,
        (BuiltIn::MailboxGet, Some(Mode::NoWait)) => count == 1 || count == 2,
        (
            BuiltIn::Alloc
            | BuiltIn::SemaphoreGet
            | BuiltIn::SemaphorePut
            | BuiltIn::MailboxPut
            | BuiltIn::MailboxGet
            | BuiltIn::CastAssign,
            _,
        ) => count == 2,
        (BuiltIn::Printf | BuiltIn::Sync | BuiltIn::Trigger | BuiltIn::WaitVar, _) => count >= 1,
        (BuiltIn::Sprintf | BuiltIn::RegionEnter | BuiltIn::RegionExit, _) => count >= 2,
    }
}
