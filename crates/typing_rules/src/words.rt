use vera_ast::typed::builtin::{BuiltInFunction, BuiltInTask, WaitingFunction};

/// The built-in calls.
#[derive(Clone, Copy, PartialEq, Eq)]
pub enum BuiltIn {
    Printf,
    Sprintf,
    Exit,
    Flag,
    GetCycle,
    Alloc,
    SemaphoreGet,
    SemaphorePut,
    MailboxPut,
    MailboxGet,
    RegionEnter,
    RegionExit,
    Sync,
    Trigger,
    WaitChild,
    WaitVar,
    CastAssign,
}

/// The mode words.
#[derive(Clone, Copy, PartialEq, Eq)]
pub enum Mode {
    Wait,
    NoWait,
    CopyWait,
    CopyNoWait,
    Semaphore,
    Mailbox,
    Region,
    All,
    Any,
    Order,
    Check,
    OneShot,
    OneBlast,
    HandShake,
    On,
    Off,
}

/// What a built-in call wants at a place of its list of arguments.
#[derive(Clone, Copy, PartialEq, Eq)]
pub enum Want {
    /// One of the call's mode words.
    Mode,
    /// One of the call's mode words, or an event.
    ModeOrEvent,
    /// The mode word `CHECK`.
    Check,
    /// The literal `0`.
    Zero,
    /// A vector or an enumeration's value.
    Vector,
    Event,
    /// What a mailbox holds: a vector, an enumeration's value, a string, an object or `null`.
    Item,
    /// An object or `null`.
    Object,
    /// A string literal that is a format.
    Format,
    /// A value that a conversion prints.
    Printed,
    /// A value of any kind: no rule but its own.
    Value,
    /// A variable for a string.
    StrVariable,
    /// A variable for what a mailbox holds.
    ItemVariable,
    /// A variable for an object.
    ObjectVariable,
    /// A whole variable or field.
    WholeVariable,
    /// The variable of a `var` parameter.
    Variable,
}

/// What becomes of a built-in call.
#[derive(Clone, Copy, PartialEq, Eq)]
pub enum Outcome {
    /// It gives a number, and doesn't wait.
    Gives(BuiltInFunction),
    /// It gives a number, and may wait before.
    MayWait(WaitingFunction),
    /// It gives nothing.
    Does(BuiltInTask),
    /// It gives nothing, and prints.
    Prints,
    /// It gives nothing, and prints into a variable.
    PrintsInto,
}
