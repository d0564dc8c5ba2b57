pub mod expr;
pub mod log;
pub mod print;
pub mod slice;
pub mod stmt;
pub mod types;
pub mod values;
pub mod work;
