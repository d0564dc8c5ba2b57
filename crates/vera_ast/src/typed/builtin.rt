use super::modes::{MailboxMode, SyncMode, TriggerMode};

/// A built-in call that gives a number, and doesn't wait: its name with its mode. Beside each stands which operands it
/// has; its target, where it has one, is the place that it assigns.
#[derive(Clone, Copy, PartialEq, Eq)]
pub enum BuiltInFunction {
    /// `flag()`.
    Flag,
    /// `get_cycle()`.
    GetCycle,
    /// `alloc(SEMAPHORE, 0, count, keys)`: count, keys.
    AllocSemaphore,
    /// `alloc(MAILBOX, 0, count)`: count.
    AllocMailbox,
    /// `alloc(REGION, 0, count)`: count.
    AllocRegion,
    /// `semaphore_get(NO_WAIT, id, keys)`: id, keys.
    SemaphoreGet,
    /// `mailbox_get(NO_WAIT or COPY_NO_WAIT, id, target)`: id.
    MailboxGet(MailboxMode),
    /// `mailbox_get(NO_WAIT, id)`: id.
    MailboxSize,
    /// `region_enter(NO_WAIT, id, values)`: id, values.
    RegionEnter,
    /// `sync(CHECK, event)`: event.
    SyncCheck,
    /// `cast_assign(target, object, CHECK)`: object.
    CastAssign,
    /// `string.len()`: string.
    Length,
}

/// A built-in call that gives a number, and may wait before: its name with its mode, and which operands it has.
#[derive(Clone, Copy, PartialEq, Eq)]
pub enum WaitingFunction {
    /// `semaphore_get(WAIT, id, keys)`: id, keys.
    SemaphoreGet,
    /// `mailbox_get(WAIT or COPY_WAIT, id, target)`: id.
    MailboxGet(MailboxMode),
    /// `region_enter(WAIT, id, values)`: id, values.
    RegionEnter,
    /// `sync(mode, events)`: events.
    Sync(SyncMode),
}

/// A built-in call that gives nothing: its name with its mode, and which operands it has. `printf` and `sprintf` have
/// statements of their own.
#[derive(Clone, Copy, PartialEq, Eq)]
pub enum BuiltInTask {
    /// `exit(value)`: value.
    Exit,
    /// `semaphore_put(id, keys)`: id, keys.
    SemaphorePut,
    /// `mailbox_put(id, item)`: id, item.
    MailboxPut,
    /// `region_exit(id, values)`: id, values.
    RegionExit,
    /// `trigger(mode, events)`: events.
    Trigger(TriggerMode),
    /// `wait_child()`.
    WaitChild,
    /// `wait_var(targets)`: whole variables and fields.
    WaitVar,
    /// `cast_assign(target, object)`: object.
    CastAssign,
}
