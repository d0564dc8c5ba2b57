use super::declarations::Decl;
use super::items::{Function, Task};
use four_state::{List, Text};

/// `class = "class" name [ "extends" name ] "{" { decl | [ "virtual" ] task | [ "virtual" ] func } "}"`.
#[derive(Drop)]
pub struct Class {
    pub line: u32,
    pub name: Text,
    pub parent: Option<Text>,
    pub members: List<Member>,
}

/// A field, or a method with whether `virtual` stands before it.
#[derive(Drop)]
pub enum Member {
    Field(Decl),
    Task(bool, Task),
    Function(bool, Function),
}
