//! Typed trees: syntax trees in which each name is replaced by what it names, and each expression has its type.
//!
//! Classes, enumerations, coverage groups, tasks and functions are numbered each among their own kind, from 0 in text
//! order.

pub mod builtin;
pub mod class;
pub mod expr;
pub mod file;
pub mod format;
pub mod group;
pub mod interface;
pub mod invocation;
pub mod modes;
pub mod names;
pub mod operators;
pub mod place;
pub mod stmt;
pub mod types;
