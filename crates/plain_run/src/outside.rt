//! What a run has outside: the netlist as a device, and what its signals were driven with.
ghost use Rattle.std.specs.Prelude.{◌≡◌, ◌∷◌, [], ◌++◌, ◌≤◌, ◌<◌, ℕ, Bool, List, All, Contains, length, OnOk, IfOk};
ghost use Rattle.blif_device.specs.Devices.{IsNew};
ghost use Rattle.blif_device.specs.Valuations.{valuation};
ghost use Rattle.blif_read.specs.Netlists.{Parts};
ghost use Rattle.four_state.specs.declared.bit.Bit3.{Bit3};
ghost use Rattle.store_api.specs.Places.{Contents};
ghost use Rattle.vera_meaning.specs.Driving.{FitsSignal};
ghost use Rattle.run_rules.specs.declared.drive.Drive.{Drive as DriveOf};
ghost use Rattle.run_rules.specs.Designs.{Design, Settles, on_nets};
ghost use Rattle.run_rules.specs.Drives.{Driven};
ghost use Rattle.run_rules.specs.Nets.{net_bit, put_bits, bits_of};
ghost use Rattle.four_state.specs.Logic.{logic_bit};
ghost use Rattle.plain_run.specs.declared.outside.LastDrive.{LastDrive as LastDriveOf};
ghost use Rattle.plain_run.specs.Outsides.{StandsFor, IsLinked, Applied, SomeApplied, BeginsCycle, NextCycle, undriven};
ghost use Rattle.plain_run.specs.Joining.{joined, sample_taken};
ghost use Rattle.plain_run.specs.Values.{contents_of};

use crate::evaluate::values::Values;
use crate::vectors::{meet, one_bit, with_bit};
use blif_device::Device;
use four_state::{Bit, Bit3, NoMemory, Vec4};
use run_rules::Drive;
use signal_link::SignalNets;
use std::alloc::Global;

/// What a signal was last driven with, and in which cycle.
#[derive(Clone, Copy)]
pub struct LastDrive {
    pub cycle: u64,
    pub bits: Vec4,
}

/// The netlist as a device of so many nets, the nets of each signal, and what each signal was last driven with.
#[derive(Drop)]
pub struct Outside<'a> {
    pub nets: &'a [SignalNets],
    pub count: usize,
    pub device: Device,
    pub driven: Vec<Option<LastDrive>>,
}

impl<'a> Outside<'a> {
    /// Nothing was driven.
    pub fn new(
        alloc: Global,
        nets: &'a [SignalNets],
        count: usize,
        device: Device,
    ) -> Result<Outside<'a>, NoMemory>
        ensures stands { IfOk result (λ outside. (design : Design) → IsLinked design nets.now → count ≡ length design.netlist.nets → IsNew design.netlist device
            → StandsFor outside design undriven device.held) }
        ensures begins { IfOk result (λ outside. (cycle : ℕ) → BeginsCycle outside cycle) }
    {
        Ok(Outside {
            nets,
            count,
            device,
            driven: vec![in alloc; None; nets.len()]?,
        })
    }

    /// One more drive of a cycle is applied: where the signal was driven in this cycle before, the two meet.
    pub fn apply(&mut self, drive: &Drive)
        requires { SomeApplied self.old drive.now }
        ensures applied { (design : Design) (former : Driven) (held : List Bit3) (done : List DriveOf) → FitsSignal design.signals drive.now.signal drive.now.bits
            → Applied self.old design former held done drive.now.cycle → Applied self.new design former held (done ++ drive.now ∷ []) drive.now.cycle }
        ensures begins { (cycle : ℕ) → drive.now.cycle < cycle → BeginsCycle self.old cycle → BeginsCycle self.new cycle }
    {
        let nets = self.nets;
        let signal = drive.signal as usize;
        let bits = joined(&self.driven[signal], drive);
        self.driven[signal] = Some(LastDrive {
            cycle: drive.cycle,
            bits,
        });
        put(&mut self.device, nets[signal].nets.as_slice(), &bits);
    }

    /// The next cycle begins: the nets settle, the input signals are sampled, and the latches take their inputs.
    pub fn next_cycle(&mut self, values: &mut Values) -> Result<(), NoMemory>
        requires { (design : Design) × (driven : Driven) × (held : List Bit3) × StandsFor self.old design driven held }
        ensures next { OnOk result ((design : Design) (driven : Driven) (held : List Bit3) → Settles design.netlist design.settle → StandsFor self.old design driven held
            → NextCycle self.new design driven held (contents_of values.old) (contents_of values.new)) }
        ensures begins { (cycle : ℕ) → BeginsCycle self.old cycle → BeginsCycle self.new cycle }
    {
        let nets = self.nets;
        self.device.settle();
        for signal in 0..nets.len() {
            take_sample(values, &self.device, self.count, signal, &nets[signal])?;
        }
        self.device.edge();
        Ok(())
    }
}

/// The value of a drive's signal: its last one and the drive meet where both are of one cycle.
fn joined(last: &Option<LastDrive>, drive: &Drive) -> Vec4
    requires { (l : LastDriveOf) → last.now ≡ Some l → l.cycle ≡ drive.now.cycle → length l.bits ≡ length drive.now.bits }
    ensures { result ≡ joined last.now drive.now }
{
    match last {
        Some(last) if last.cycle == drive.cycle => meet(&last.bits, &drive.bits),
        _ => drive.bits,
    }
}

/// Takes the sample of a signal, where it is an input.
fn take_sample(
    values: &mut Values,
    device: &Device,
    count: usize,
    signal: usize,
    nets: &SignalNets,
) -> Result<(), NoMemory>
    requires count { count ≡ length device.now.netlist.nets }
    requires some { 1 ≤ length nets.now.nets }
    requires few { length nets.now.nets ≤ 128 }
    requires signal { signal < usize.MAX }
    ensures { OnOk result (contents_of values.new ≡ sample_taken (on_nets count (valuation device.now.values)) nets.now signal (contents_of values.old)) }
{
    if nets.output {
        return Ok(());
    }
    values.set_sample(signal, sample(device, count, nets.nets.as_slice()))
}

/// Drives the nets of a signal with its bits.
fn put(device: &mut Device, nets: &[u32], bits: &Vec4)
    requires inputs { All (λ net. Contains device.old.netlist.inputs net) nets.now }
    requires below { All (λ net. net < length device.old.driven) nets.now }
    requires width { length nets.now ≡ length bits.now }
    ensures netlist { device.new.netlist ≡ device.old.netlist }
    ensures held { device.new.held ≡ device.old.held }
    ensures size { length device.new.driven ≡ length device.old.driven }
    ensures driven { valuation device.new.driven ≡ put_bits nets.now bits.now (valuation device.old.driven) }
{
    for at in 0..bits.width() {
        device.set_input(nets[usize::from(at)], net_bit(bits.bit(at)));
    }
}

/// A bit as a net has it: z is x there.
fn net_bit(bit: Bit) -> Bit3
    ensures { result ≡ net_bit bit }
{
    match bit {
        Bit::Zero => Bit3::Zero,
        Bit::One => Bit3::One,
        Bit::X | Bit::Z => Bit3::X,
    }
}

/// The sample of an input signal: the values of its nets. A net that the netlist, of so many nets, doesn't have is x.
fn sample(device: &Device, count: usize, nets: &[u32]) -> Vec4
    requires count { count ≡ length device.now.netlist.nets }
    requires some { 1 ≤ length nets.now }
    requires few { length nets.now ≤ 128 }
    ensures { result ≡ bits_of (on_nets count (valuation device.now.values)) nets.now }
{
    let mut bits = one_bit(value(device, count, nets[0]));
    for at in 1..nets.len() {
        bits = with_bit(&bits, value(device, count, nets[at]));
    }
    bits
}

/// The value of a net, as a bit.
fn value(device: &Device, count: usize, net: u32) -> Bit
    requires { count ≡ length device.now.netlist.nets }
    ensures { result ≡ logic_bit (on_nets count (valuation device.now.values) net) }
{
    if net as usize >= count {
        return Bit::X;
    }
    match device.net(net) {
        Bit3::Zero => Bit::Zero,
        Bit3::One => Bit::One,
        Bit3::X => Bit::X,
    }
}
