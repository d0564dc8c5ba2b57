use four_state::Text;
use run_rules::Status;

/// What the program answers.
#[derive(Drop)]
pub struct Answer {
    pub status: Status,
    /// The text that is due on the sink.
    pub text: Text,
}
