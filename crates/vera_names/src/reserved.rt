//! The names of the built-in calls, and the mode words.

ghost use Rattle.std.specs.Prelude.{◌≡◌};
ghost use Rattle.typing_rules.specs.Words as spec;
ghost use Rattle.vera_names.specs.Tables.{rows_of};

use typing_rules::words::{BuiltIn, Mode};

static CALLED: [(&[u8], BuiltIn); 17] = [
    (b"printf", BuiltIn::Printf),
    (b"sprintf", BuiltIn::Sprintf),
    (b"exit", BuiltIn::Exit),
    (b"flag", BuiltIn::Flag),
    (b"get_cycle", BuiltIn::GetCycle),
    (b"alloc", BuiltIn::Alloc),
    (b"semaphore_get", BuiltIn::SemaphoreGet),
    (b"semaphore_put", BuiltIn::SemaphorePut),
    (b"mailbox_put", BuiltIn::MailboxPut),
    (b"mailbox_get", BuiltIn::MailboxGet),
    (b"region_enter", BuiltIn::RegionEnter),
    (b"region_exit", BuiltIn::RegionExit),
    (b"sync", BuiltIn::Sync),
    (b"trigger", BuiltIn::Trigger),
    (b"wait_child", BuiltIn::WaitChild),
    (b"wait_var", BuiltIn::WaitVar),
    (b"cast_assign", BuiltIn::CastAssign),
];

static MODES: [(&[u8], Mode); 16] = [
    (b"WAIT", Mode::Wait),
    (b"NO_WAIT", Mode::NoWait),
    (b"COPY_WAIT", Mode::CopyWait),
    (b"COPY_NO_WAIT", Mode::CopyNoWait),
    (b"SEMAPHORE", Mode::Semaphore),
    (b"MAILBOX", Mode::Mailbox),
    (b"REGION", Mode::Region),
    (b"ALL", Mode::All),
    (b"ANY", Mode::Any),
    (b"ORDER", Mode::Order),
    (b"CHECK", Mode::Check),
    (b"ONE_SHOT", Mode::OneShot),
    (b"ONE_BLAST", Mode::OneBlast),
    (b"HAND_SHAKE", Mode::HandShake),
    (b"ON", Mode::On),
    (b"OFF", Mode::Off),
];

/// What stands beside a word in a table.
#[tactic(auto, unfolding(typing_rules::specs::Words::beside))]
fn beside<T: Copy>(rows: &[(&[u8], T)], word: &[u8]) -> Option<T>
    ensures { result ≡ spec.beside (rows_of rows.now) word.now }
{
    for row in rows {
        if row.0 == word {
            return Some(row.1);
        }
    }
    None
}

/// The built-in call of this name.
#[tactic(auto, unfolding(typing_rules::specs::Words::built_in))]
pub fn built_in(word: &[u8]) -> Option<BuiltIn>
    ensures { result ≡ spec.built_in word.now }
{
    beside(&CALLED, word)
}

/// The mode word that is written so.
#[tactic(auto, unfolding(typing_rules::specs::Words::mode))]
pub fn mode(word: &[u8]) -> Option<Mode>
    ensures { result ≡ spec.mode word.now }
{
    beside(&MODES, word)
}

/// Whether it is the name of a built-in call or a mode word.
#[tactic(auto, unfolding(typing_rules::specs::Words::is_word))]
pub fn is_word(word: &[u8]) -> bool
    ensures { result ≡ spec.is_word word.now }
{
    built_in(word).is_some() || mode(word).is_some()
}
