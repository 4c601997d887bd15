//! That a fault is the only one, and what the digits of a listing are.
// What holds of every text of a job.
ghost use Rattle.std.specs.Prelude.{◌≡◌, List, ℕ};
ghost use Rattle.core_sim.specs.declared.job.Job.{Job};
ghost use Rattle.guest_asm.specs.declared.cause.JobFault.{JobFault};
ghost use Rattle.guest_asm.specs.Operands.{AreNames, named_registers, numbered_registers};
ghost use Rattle.guest_asm.specs.Jobs.{IsJobText, HasFault};
ghost use Rattle.guest_asm.specs.Listing.{eight_digits, zeros_and_digits};

/// A text with a fault is no job, and it has one fault.
pub fn one_fault()
    ensures no_job { (bytes : List ℕ) (job : Job) (fault : JobFault) → IsJobText bytes job → HasFault bytes fault → ⊥ }
    ensures one { (bytes : List ℕ) (a b : JobFault) → HasFault bytes a → HasFault bytes b → a ≡ b }
{}

/// The eight digits of a word in a listing are its hex digits after as many zeros as they are short of eight.
pub fn eight_digits()
    ensures { (word : ℕ) → eight_digits word ≡ zeros_and_digits word }
{}

/// The names of the registers.
pub fn register_names()
    ensures named { AreNames named_registers }
    ensures numbered { AreNames numbered_registers }
{}
