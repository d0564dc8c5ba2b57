pub mod conditions;
pub mod driving;
pub mod expressions;
pub mod slices;
pub mod statements;
pub mod while_loops;
