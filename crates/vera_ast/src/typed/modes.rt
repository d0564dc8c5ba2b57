/// What a `mailbox_get` does with the item that it gives: the modes `WAIT` and `NO_WAIT` take it out of the mailbox,
/// `COPY_WAIT` and `COPY_NO_WAIT` leave it there.
#[derive(Clone, Copy, PartialEq, Eq)]
pub enum MailboxMode {
    Take,
    Copy,
}

/// For which of its events a `sync` waits.
#[derive(Clone, Copy, PartialEq, Eq)]
pub enum SyncMode {
    All,
    Any,
    /// For all, one after the other.
    Order,
}

/// How a `trigger` serves the threads that wait for an event. Without a mode it is `ONE_SHOT`.
#[derive(Clone, Copy, PartialEq, Eq)]
pub enum TriggerMode {
    OneShot,
    OneBlast,
    HandShake,
    On,
    Off,
}
