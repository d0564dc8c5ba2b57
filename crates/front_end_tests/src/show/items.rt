//! Items and the file.

use super::Out;
use super::coverage::{group, interface};
use super::declarations::{data_type, decl, parameters};
use super::statements::block;
use four_state::NoMemory;
use vera_ast::{Class, Enumeration, Function, Item, Member, Program, Task, TaskName, Tree};

/// `tree ITEM ..`.
pub fn tree(out: &mut Out, node: &Tree) -> Result<(), NoMemory> {
    out.put(b"tree")?;
    for node in node.items.as_slice() {
        out.put(b" ")?;
        item(out, node)?;
    }
    Ok(())
}

fn item(out: &mut Out, node: &Item) -> Result<(), NoMemory> {
    match node {
        Item::Enumeration(node) => enumeration(out, node),
        Item::Class(node) => class(out, node),
        Item::Interface(node) => interface(out, node),
        Item::Group(node) => group(out, node),
        Item::Task(node) => task(out, node),
        Item::Function(node) => function(out, node),
        Item::Program(node) => program(out, node),
    }
}

/// `1:(enum e A B)`.
fn enumeration(out: &mut Out, node: &Enumeration) -> Result<(), NoMemory> {
    out.line(node.line)?;
    out.put(b"(enum ")?;
    out.name(&node.name)?;
    for value in node.values.as_slice() {
        out.put(b" ")?;
        out.name(value)?;
    }
    out.put(b")")
}

/// `1:(class c extends d MEMBER ..)`.
fn class(out: &mut Out, node: &Class) -> Result<(), NoMemory> {
    out.line(node.line)?;
    out.put(b"(class ")?;
    out.name(&node.name)?;
    if let Some(parent) = &node.parent {
        out.put(b" extends ")?;
        out.name(parent)?;
    }
    for node in node.members.as_slice() {
        out.put(b" ")?;
        member(out, node)?;
    }
    out.put(b")")
}

fn member(out: &mut Out, node: &Member) -> Result<(), NoMemory> {
    match node {
        Member::Field(node) => decl(out, node),
        Member::Task(is_virtual, node) => {
            out.put(if *is_virtual { b"virtual " } else { b"" })?;
            task(out, node)
        }
        Member::Function(is_virtual, node) => {
            out.put(if *is_virtual { b"virtual " } else { b"" })?;
            function(out, node)
        }
    }
}

/// `1:(task t (PARAMETERS) BLOCK)`.
fn task(out: &mut Out, node: &Task) -> Result<(), NoMemory> {
    out.line(node.line)?;
    out.put(b"(task ")?;
    match &node.name {
        TaskName::Named(name) => out.name(name)?,
        TaskName::New => out.put(b"new")?,
    }
    out.put(b" ")?;
    parameters(out, node.parameters.as_slice())?;
    out.put(b" ")?;
    block(out, &node.block)?;
    out.put(b")")
}

/// `1:(function TYPE f (PARAMETERS) BLOCK)`.
fn function(out: &mut Out, node: &Function) -> Result<(), NoMemory> {
    out.line(node.line)?;
    out.put(b"(function ")?;
    data_type(out, &node.result)?;
    out.put(b" ")?;
    out.name(&node.name)?;
    out.put(b" ")?;
    parameters(out, node.parameters.as_slice())?;
    out.put(b" ")?;
    block(out, &node.block)?;
    out.put(b")")
}

/// `1:(program p BLOCK)`.
fn program(out: &mut Out, node: &Program) -> Result<(), NoMemory> {
    out.line(node.line)?;
    out.put(b"(program ")?;
    out.name(&node.name)?;
    out.put(b" ")?;
    block(out, &node.block)?;
    out.put(b")")
}
