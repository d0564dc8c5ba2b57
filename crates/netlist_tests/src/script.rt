//! A script's lines, one after the other.

use crate::devices::{every_net, run};
use crate::links::{links, names};
use crate::out::Out;
use crate::parts::{counts, parts};
use crate::problem::Problem;
use crate::signals::interface;
use crate::texts::{repeated, unescaped};
use blif_read::{NetError, Netlist, read};
use four_state::List;
use std::alloc::Global;
use vera_ast::TypedTree;

/// What the lines have made.
#[derive(Drop)]
pub struct Script {
    alloc: Global,
    /// The netlist's text; None: the netlist is the empty one.
    text: Option<Vec<u8>>,
    testbench: TypedTree,
}

impl Script {
    pub fn new(alloc: Global) -> Script {
        Script {
            alloc,
            text: None,
            testbench: TypedTree {
                items: List::empty(alloc),
            },
        }
    }

    /// The answer to the next line.
    pub fn answer(&mut self, line: &str) -> Result<Vec<u8>, Problem> {
        let mut out = Out::new(self.alloc);
        let (command, operand) = line.split_once(' ').unwrap_or((line, ""));
        match command {
            "#" => out.put(format!(in self.alloc; "{line}\n")?.as_bytes())?,
            "netlist" => self.begin(operand)?,
            "|" | "~" | "times" => self.add(command, operand)?,
            "testbench" => self.testbench.items = List::empty(self.alloc),
            "interface" => {
                let item = interface(self.alloc, operand)?;
                self.testbench.items.push(item)?;
            }
            "names" => names(&mut out, &self.testbench)?,
            "read" | "count" | "run" | "outputs" | "link" | "linked" => {
                self.ask(&mut out, command, operand)?;
            }
            _ => return Err(Problem::Unsupported),
        }
        Ok(out.text)
    }

    /// Begins the next netlist.
    fn begin(&mut self, operand: &str) -> Result<(), Problem> {
        self.text = match operand {
            "" => Some(Vec::new(self.alloc)),
            "empty" => None,
            _ => return Err(Problem::Unsupported),
        };
        Ok(())
    }

    /// Adds to the netlist's text.
    fn add(&mut self, command: &str, operand: &str) -> Result<(), Problem> {
        let Some(text) = &mut self.text else {
            return Err(Problem::Unsupported);
        };
        let more = match command {
            "times" => repeated(self.alloc, operand)?,
            _ => unescaped(self.alloc, operand.as_bytes())?,
        };
        text.extend_from_slice(more.as_slice())?;
        if command == "|" {
            text.extend_from_slice(b"\n")?;
        }
        Ok(())
    }

    /// Answers a line that asks of the netlist.
    fn ask(&self, out: &mut Out, command: &str, operand: &str) -> Result<(), Problem> {
        match self.netlist() {
            Ok(netlist) => self.tell(out, &netlist, command, operand),
            Err(NetError::Refused { code, line }) => {
                let text = format!(in out.alloc; "N0{code} line {line}\n")?;
                Ok(out.put(text.as_bytes())?)
            }
            Err(NetError::NoMemory) => Err(Problem::NoMemory),
        }
    }

    fn netlist(&self) -> Result<Netlist, NetError> {
        match &self.text {
            None => Ok(Netlist::empty(self.alloc)),
            Some(text) if text.len() < 4_294_967_295 => read(self.alloc, text.as_slice()),
            Some(_) => Err(NetError::NoMemory),
        }
    }

    fn tell(
        &self,
        out: &mut Out,
        netlist: &Netlist,
        command: &str,
        operand: &str,
    ) -> Result<(), Problem> {
        match command {
            "read" => Ok(parts(out, &netlist.copy(out.alloc)?)?),
            "count" => Ok(counts(out, netlist)?),
            "run" => {
                let nets = every_net(out.alloc, netlist)?;
                run(out, netlist, operand, nets.as_slice())
            }
            "outputs" => run(out, netlist, operand, netlist.outputs.as_slice()),
            "link" => links(out, &self.testbench, netlist, true),
            "linked" => links(out, &self.testbench, netlist, false),
            _ => Err(Problem::Unsupported),
        }
    }
}
