//! Laws of runs.
ghost use Rattle.std.specs.Prelude.{◌≡◌, ◌≢◌, ◌+◌, ◌-◌, ◌*◌, ◌^◌, ◌<◌, ◌≤◌, ◌++◌, ℕ, List, All, length, map, take, drop, flat_map, nat_eq};
ghost use Rattle.std.specs.List.{IsDistinct};
ghost use Rattle.std.specs.Int.{to_le_bytes, w32};
ghost use Rattle.rv_isa.specs.Encoding.{IsInst, encoded};
ghost use Rattle.rv_isa.specs.declared.inst.Inst.{Inst};
ghost use Rattle.rv_mach.specs.declared.stop.Stop.TheVariants.{Running};
ghost use Rattle.rv_mach.specs.Layout.{image_start};
ghost use Rattle.rv_mach.specs.State.{State, fresh, register, start, with_register};
ghost use Rattle.rv_mach.specs.Registers.{IsRegisterFile};
ghost use Rattle.rv_mach.specs.Run.{run_of, IsJoined};
ghost use Rattle.rv_mach.specs.Code.{HasCode, IsStraight, IsPlace, StoresNothing, Spares, after_code, places};
ghost use Rattle.rv_mach.specs.Step.{act, action, settled};

/// A run of a steps and then one of b steps, on one input, are a run of a + b steps.
pub fn runs_join()
    ensures { (input : List ℕ) (a b : ℕ) (m : State) → IsJoined input a b m }
{}

/// A machine that stopped stays as it is, whatever steps it is given, and puts nothing.
pub fn stopped_machine_stays()
    ensures { (input : List ℕ) (n : ℕ) (m : State) → m.stop ≢ Running → run_of input n m ≡ fresh m }
{}

/// A run that goes on went on after fewer steps, and these put what it put first.
pub fn runs_show_their_way()
    ensures going { (input : List ℕ) (n k : ℕ) (m : State) → n ≤ k
        → (run_of input k m).machine.stop ≡ Running → (run_of input n m).machine.stop ≡ Running }
    ensures output { (input : List ℕ) (n k : ℕ) (m : State) → n ≤ k
        → (run_of input k m).output
        ≡ (run_of input n m).output ++ (run_of input (k - n) (run_of input n m).machine).output }
{}

/// A machine keeps 32 registers, and `x0` zero, and it begins so.
pub fn registers_stay_whole()
    ensures kept { (input : List ℕ) (n : ℕ) (m : State) → IsRegisterFile m.registers
        → IsRegisterFile (run_of input n m).machine.registers }
    ensures begun { (image : List ℕ) → IsRegisterFile (start image).registers }
{}

/// A register that is set has its number, and each other one the number that it had.
pub fn registers_are_set()
    ensures same { (r value : ℕ) (m : State) → 0 < r → r < length m.registers
        → register r (with_register r value m) ≡ value }
    ensures other { (r s value : ℕ) (m : State) → s ≢ r
        → register s (with_register r value m) ≡ register s m }
{}

/// No instruction but a store changes the image, and code stays where a store spares it.
pub fn images_stay()
    ensures image { (input output : List ℕ) (i : Inst) (m : State) → StoresNothing (action i m)
        → (settled (act input i m) output).machine.image ≡ m.image }
    ensures code { (input output : List ℕ) (i : Inst) (m : State) (address : ℕ) (code : List Inst)
        → HasCode m.image address code → Spares address (4 * length code) (action i m)
        → HasCode (settled (act input i m) output).machine.image address code }
{}

/// An image that has the words of code, the low byte of each first, has the code.
pub fn words_are_code()
    ensures { (image : List ℕ) (k : ℕ) (code : List Inst) → All IsInst code
        → take (4 * length code) (drop (4 * k) image) ≡ flat_map (to_le_bytes w32) (map encoded code)
        → HasCode image (image_start + 4 * k) code }
{}

/// A machine at straight-line code executes one instruction of it a step.
pub fn straight_code_runs()
    ensures { (input : List ℕ) (code : List Inst) (n : ℕ) (m : State)
        → n ≤ length code → HasCode m.image m.pc code → m.stop ≡ Running
        → m.pc + 4 * length code ≤ 2 ^ 64 → IsStraight input code m
        → run_of input n m ≡ after_code input (take n code) (fresh m) }
{}

/// Addresses of instructions that differ are no more than the instructions, and so are the steps of a run
/// that comes to no address twice.
pub fn places_are_few()
    ensures addresses { (count : ℕ) (addresses : List ℕ)
        → All (IsPlace count) addresses → IsDistinct nat_eq addresses → length addresses ≤ count }
    ensures steps { (input : List ℕ) (n count : ℕ) (m : State)
        → All (IsPlace count) (places input n m) → IsDistinct nat_eq (places input n m) → n ≤ count }
{}
