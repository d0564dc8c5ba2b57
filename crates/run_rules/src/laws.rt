pub mod drives;
pub mod edges;
pub mod nets;
pub mod runs;
pub mod sources;
pub mod statuses;
pub mod turns;
