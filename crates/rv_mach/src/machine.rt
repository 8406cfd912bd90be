//! The machine: loading an image, and its runs.
ghost use Rattle.std.specs.Prelude.{◌≡◌, ◌≢◌, ◌*◌, ◌^◌, ◌<◌, ◌≤◌, [], IfOk, OnOk, OnErr, IfErr};
ghost use Rattle.std.specs.Io.KnownBytes.{Appends};
ghost use Rattle.cg_io.specs.Faults.{Rose};
ghost use Rattle.rv_isa.specs.Encoding.{IsInst};
ghost use Rattle.rv_isa.specs.declared.op.Op.TheVariants.{Ecall};
ghost use Rattle.rv_mach.specs.Actions.{IsCall};
ghost use Rattle.rv_mach.specs.Memory.{IsWithin, bytes_of, placed, read_from, written_to};
ghost use Rattle.rv_mach.specs.State.{start, zeros, fresh, register, registers_with};
ghost use Rattle.rv_isa.specs.Registers.{a7};
ghost use Rattle.rv_mach.specs.Step.{put, instruction, act, performed, load_from, store_at, called, step, settled, executed};
ghost use Rattle.rv_mach.specs.Run.{run_of, IsAtPut, IsCutOff};
ghost use Rattle.rv_mach.specs.Effects.{effect_of, IsPut};

use crate::action::{Action, action_of};
use crate::effect::Effect;
use crate::memory::{
    IMAGE_START, STACK_BYTES, STACK_END, STACK_START, extension, fetch, index_in, is_aligned,
    number_at, write_number,
};
use crate::place::Place;
use crate::size::Size;
use crate::stop::{Stop, TrapKind};
use cg_io::{NoMemory, Sink, WriteFault, write_all};
use obj_link::Image;
use rv_isa::{A0, A7, Inst, SP, decode};
use std::alloc::Global;
use std::marker::Model;

// The calls of the environment, by their numbers in `a7`.
const PUT: u64 = 1;

const GET: u64 = 2;

const EXIT: u64 = 93;

/// A machine with an image and a stack. Contracts see its `State`.
#[derive(Drop)]
pub struct Machine {
    pc: u64,
    registers: [u64; 32],
    image: Vec<u8>,
    stack: Vec<u8>,
    taken: usize,
    stop: Stop,
}

impl Model for Machine {
    ghost use Rattle.rv_mach.specs.State.{State};

    ghost Value = { State };

    ghost view = { λ m. record {
      pc = m.pc;
      registers = m.registers;
      image = m.image.items;
      stack = m.stack.items;
      taken = m.taken;
      stop = m.stop;
    } };
}

impl Machine {
    /// A machine with this image before its first step. It takes all the memory that the machine needs.
    pub fn load(alloc: Global, image: &Image) -> Result<Machine, NoMemory>
        ensures { IfOk result (λ m. m ≡ start image.now.bytes) }
    {
        let mut registers = [0; 32];
        registers[SP as usize] = STACK_END;
        Ok(Machine {
            pc: IMAGE_START,
            registers,
            image: image.bytes.as_slice().to_vec(alloc)?,
            stack: zero_bytes(alloc, STACK_BYTES)?,
            taken: 0,
            stop: Stop::Running,
        })
    }

    /// Runs the machine for `steps` steps, or until it stops, and answers how it stands then. The bytes
    /// that it puts go to `out`, and those that it gets are those of `input` after the ones that earlier
    /// runs took. It takes no memory. At a fault of `out` the machine stands before the `ecall` that put
    /// the byte, and a later run tries that `ecall` again.
    pub fn run<O: Sink>(
        &mut self,
        steps: u64,
        input: &[u8],
        out: &mut O,
    ) -> Result<Stop, WriteFault>
        ensures stop { IfOk result (λ stop. stop ≡ (run_of input.now steps self.old).machine.stop) }
        ensures machine { OnOk result (self.new ≡ (run_of input.now steps self.old).machine) }
        ensures output { OnOk result (Appends (O.written out.old) (O.written out.new)
            (run_of input.now steps self.old).output) }

        ensures stopped { self.old.stop ≢ Stop.Running
            → (result ≡ Ok self.old.stop) × (self.new ≡ self.old) × (out.new ≡ out.old) }

        ensures cut_off { OnErr result (IsCutOff input.now steps self.old self.new
            (O.written out.old) (O.written out.new)) }
        ensures written { IfErr result (λ fault. fault.written ≡ 0) }
        ensures fault { OnErr result (Rose (O.faults out.old) (O.faults out.new)) }
        ensures no_fault { OnOk result (O.faults out.new ≡ O.faults out.old) }
        ensures later { O.faults out.old ≤ O.faults out.new }
    {
        for _ in 0..steps {
            match self.stop {
                Stop::Running => self.step(input, out)?,
                stop => return Ok(stop),
            }
        }
        Ok(self.stop)
    }

    /// One step of a machine that did not stop.
    fn step<O: Sink>(&mut self, input: &[u8], out: &mut O) -> Result<(), WriteFault>
        requires { self.old.stop ≡ Stop.Running }
        ensures machine { OnOk result (self.new ≡ (step input.now (fresh self.old)).machine) }
        ensures output { OnOk result (Appends (O.written out.old) (O.written out.new)
            (step input.now (fresh self.old)).output) }

        ensures err { OnErr result (self.new ≡ self.old) }
        ensures at_put { OnErr result (IsAtPut self.old) }
        ensures nothing_put { OnErr result (Appends (O.written out.old) (O.written out.new) []) }
        ensures written { IfErr result (λ fault. fault.written ≡ 0) }
        ensures fault { OnErr result (Rose (O.faults out.old) (O.faults out.new)) }
        ensures no_fault { OnOk result (O.faults out.new ≡ O.faults out.old) }
        ensures later { O.faults out.old ≤ O.faults out.new }
    {
        let effect = self.effect(input);
        self.settle(effect, out)
    }

    /// Executes the next instruction, up to where the machine goes on.
    fn effect(&mut self, input: &[u8]) -> Effect
        ensures value { effect_of result self.new ≡ executed (instruction self.old) input.now self.old }
        ensures unchanged { IsPut result → self.new ≡ self.old }
        ensures put { IsPut result → IsAtPut self.old }
    {
        match self.instruction() {
            Ok(i) => self.act(i, input),
            Err(stop) => Effect::Stop(stop),
        }
    }

    /// Goes on as an effect says. A byte is put first, so that a fault leaves the machine as it was.
    fn settle<O: Sink>(&mut self, effect: Effect, out: &mut O) -> Result<(), WriteFault>
        ensures machine { OnOk result (self.new ≡ (settled (effect_of effect self.old) []).machine) }
        ensures output { OnOk result (Appends (O.written out.old) (O.written out.new)
            (settled (effect_of effect self.old) []).output) }

        ensures err { OnErr result (self.new ≡ self.old) }
        ensures put { OnErr result (IsPut effect) }
        ensures nothing_put { OnErr result (Appends (O.written out.old) (O.written out.new) []) }
        ensures written { IfErr result (λ fault. fault.written ≡ 0) }
        ensures fault { OnErr result (Rose (O.faults out.old) (O.faults out.new)) }
        ensures no_fault { OnOk result (O.faults out.new ≡ O.faults out.old) }
        ensures later { O.faults out.old ≤ O.faults out.new }
    {
        match effect {
            Effect::Next => self.pc = self.pc.wrapping_add(4),
            Effect::Jump(address) => self.pc = address,
            Effect::Put(byte) => {
                write_all(out, &[byte])?;
                self.pc = self.pc.wrapping_add(4);
            }
            Effect::Stop(stop) => self.stop = stop,
        }
        Ok(())
    }

    /// The instruction that comes next, or why the machine stops before one.
    fn instruction(&self) -> Result<Inst, Stop>
        ensures value { result ≡ instruction self.now }
        ensures on_table { IfOk result IsInst }
    {
        if self.registers[SP as usize] < STACK_START {
            return Err(Stop::StackOut);
        }
        match fetch(self.image.as_slice(), self.pc) {
            Ok(word) => decode(word).ok_or(Stop::Trapped(TrapKind::Illegal)),
            Err(kind) => Err(Stop::Trapped(kind)),
        }
    }

    /// Does what an instruction does, up to where the machine goes on.
    fn act(&mut self, i: Inst, input: &[u8]) -> Effect
        requires { IsInst i }
        ensures value { effect_of result self.new ≡ act input.now i self.old }
        ensures unchanged { IsPut result → self.new ≡ self.old }
        ensures put { IsPut result → (i.op ≡ Ecall) × (register a7 self.old ≡ put) }
    {
        let a = self.registers[usize::from(i.rs1)];
        let b = self.registers[usize::from(i.rs2)];
        self.perform(action_of(i, a, b, self.pc), i.rd, input)
    }

    /// Performs an action, up to where the machine goes on.
    fn perform(&mut self, action: Action, rd: u8, input: &[u8]) -> Effect
        requires { rd < 32 }
        ensures value { effect_of result self.new ≡ performed action rd input.now self.old }
        ensures unchanged { IsPut result → self.new ≡ self.old }
        ensures put { IsPut result → IsCall action × (register a7 self.old ≡ put) }
    {
        match action {
            Action::Set(value) => {
                set_register(&mut self.registers, rd, value);
                Effect::Next
            }
            Action::Load(size, signed, address) => self.load_register(size, signed, address, rd),
            Action::Store(size, value, address) => self.store(size, value, address),
            Action::Branch(true, target) => Effect::Jump(target),
            Action::Branch(false, _) | Action::Pass => Effect::Next,
            Action::Jump(target) => {
                set_register(&mut self.registers, rd, self.pc.wrapping_add(4));
                Effect::Jump(target)
            }
            Action::Call => self.call(input),
            Action::Break => Effect::Stop(Stop::Trapped(TrapKind::Break)),
        }
    }

    /// Where as many bytes as a size has from an address on lie.
    fn place(&self, size: Size, address: u64) -> Result<Place, TrapKind>
        ensures value { result ≡ placed size address self.now }
        ensures within { IfOk result (λ place. IsWithin place size self.now) }
    {
        if !is_aligned(size, address) {
            return Err(TrapKind::Misaligned);
        }
        if let Some(index) = index_in(IMAGE_START, self.image.len(), size, address) {
            return Ok(Place::Image(index));
        }
        match index_in(STACK_START, self.stack.len(), size, address) {
            Some(index) => Ok(Place::Stack(index)),
            None => Err(TrapKind::Unmapped),
        }
    }

    /// The number at a place.
    fn number(&self, place: Place, size: Size) -> u64
        requires { IsWithin place size self.now }
        ensures value { result ≡ read_from place size self.now }
        ensures bound { result < 2 ^ (8 * bytes_of size) }
    {
        match place {
            Place::Image(index) => number_at(size, self.image.as_slice(), index),
            Place::Stack(index) => number_at(size, self.stack.as_slice(), index),
        }
    }

    /// Loads a number into a register.
    fn load_register(&mut self, size: Size, signed: bool, address: u64, rd: u8) -> Effect
        requires { rd < 32 }
        ensures value { effect_of result self.new ≡ load_from (placed size address self.old) size signed rd self.old }
        ensures put { ¬ (IsPut result) }
    {
        match self.place(size, address) {
            Ok(place) => {
                let number = extension(size, signed, self.number(place, size));
                set_register(&mut self.registers, rd, number);
                Effect::Next
            }
            Err(kind) => Effect::Stop(Stop::Trapped(kind)),
        }
    }

    /// Stores a number.
    fn store(&mut self, size: Size, value: u64, address: u64) -> Effect
        ensures value { effect_of result self.new ≡ store_at (placed size address self.old) size value self.old }
        ensures put { ¬ (IsPut result) }
    {
        match self.place(size, address) {
            Ok(place) => {
                self.write(place, size, value);
                Effect::Next
            }
            Err(kind) => Effect::Stop(Stop::Trapped(kind)),
        }
    }

    /// Writes a number to a place.
    fn write(&mut self, place: Place, size: Size, value: u64)
        requires { IsWithin place size self.old }
        ensures { self.new ≡ written_to place size value self.old }
    {
        match place {
            Place::Image(index) => write_number(size, self.image.as_mut_slice(), index, value),
            Place::Stack(index) => write_number(size, self.stack.as_mut_slice(), index, value),
        }
    }

    /// A call of the environment.
    fn call(&mut self, input: &[u8]) -> Effect
        ensures value { effect_of result self.new ≡ called (register a7 self.old) input.now self.old }
        ensures unchanged { IsPut result → self.new ≡ self.old }
        ensures put { IsPut result → register a7 self.old ≡ put }
    {
        let argument = self.registers[A0 as usize];
        match self.registers[A7 as usize] {
            PUT => Effect::Put((argument % 0x100) as u8),
            GET => {
                self.registers[A0 as usize] = match input.get(self.taken) {
                    Some(byte) => {
                        self.taken += 1;
                        u64::from(*byte)
                    }
                    None => u64::MAX,
                };
                Effect::Next
            }
            EXIT => Effect::Stop(Stop::Exited((argument % 0x1_0000_0000) as u32)),
            _ => Effect::Stop(Stop::Trapped(TrapKind::Ecall)),
        }
    }
}

/// Sets a register. `x0` stays zero.
fn set_register(registers: &mut [u64; 32], rd: u8, value: u64)
    requires { rd < 32 }
    ensures { registers.new ≡ registers_with rd value registers.old }
{
    if rd != 0 {
        registers[usize::from(rd)] = value;
    }
}

/// This many bytes that are all 0.
#[tactic(auto, unfolding(crate::specs::State::zeros))]
fn zero_bytes(alloc: Global, count: usize) -> Result<Vec<u8>, NoMemory>
    ensures { IfOk result (λ bytes. bytes.items ≡ zeros count) }
{
    Ok(vec![in alloc; 0; count]?)
}
