use run_rules::Drive;
use std::alloc::Global;

/// What a run has told so far: the bytes that it printed, and the drives that are due in the present cycle.
#[derive(Drop)]
pub struct Log {
    pub printed: Vec<u8>,
    pub due: Vec<Drive>,
}

impl Log {
    ghost use Rattle.std.specs.Prelude.{◌≡◌};
    ghost use Rattle.plain_run.specs.Logs.{told, nothing_told};

    /// Nothing was told. It takes no memory.
    pub fn new(alloc: Global) -> Log
        ensures { told result ≡ nothing_told }
    {
        Log {
            printed: Vec::new(alloc),
            due: Vec::new(alloc),
        }
    }
}
