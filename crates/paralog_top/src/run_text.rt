//! The text of a run.
ghost use Rattle.std.specs.Prelude.{◌≡◌, ◌+◌, ◌%◌, ◌==◌, ◌||◌, ◌<◌, ◌++◌, IfOk, OnOk, string_bytes};
ghost use Rattle.core_sim.specs.declared.hart.HartEnd.TheVariants.{Fault};
ghost use Rattle.log_text.specs.Spelling.{fault_word};
ghost use Rattle.paralog_top.specs.RunText.{end_words, hart_line, hart_lines, run_text};
ghost use Rattle.paralog_top.specs.RunText.{byte_lines, byte_text};

use core_sim::HartEnd;
use pl_base::{FaultCause, NoMemory};
use std::alloc::{AllocError, Global};

/// How many bytes stand in a line.
const IN_LINE: usize = 32;

fn word_of(cause: FaultCause) -> &'static str
    ensures { result.now ≡ fault_word cause }
{
    match cause {
        FaultCause::Pc => "pc",
        FaultCause::Illegal => "illegal",
        FaultCause::Align => "align",
        FaultCause::Unmapped => "unmapped",
        FaultCause::ReadOnly => "readonly",
    }
}

fn write_fault(out: &mut String, cause: FaultCause, addr: u32) -> Result<(), AllocError>
    ensures { OnOk result (string_bytes out.new ≡ string_bytes out.old ++ end_words (Fault cause addr)) }
{
    let word = word_of(cause);
    write!(out, "fault {word} {addr:x}")
}

fn write_end(out: &mut String, end: HartEnd) -> Result<(), AllocError>
    ensures { OnOk result (string_bytes out.new ≡ string_bytes out.old ++ end_words end) }
{
    match end {
        HartEnd::Live => out.push_str("live"),
        HartEnd::Exit { code } => write!(out, "exit {code}"),
        HartEnd::Fault { cause, addr } => write_fault(out, cause, addr),
    }
}

fn write_hart(out: &mut String, hart: usize, end: HartEnd) -> Result<(), AllocError>
    ensures { OnOk result (string_bytes out.new ≡ string_bytes out.old ++ hart_line hart end) }
{
    write!(out, "h{hart} ")?;
    write_end(out, end)?;
    out.push_str("\n")
}

fn write_harts(out: &mut String, ends: &[HartEnd]) -> Result<(), AllocError>
    ensures { OnOk result (string_bytes out.new ≡ string_bytes out.old ++ hart_lines ends.now) }
{
    for (hart, end) in ends.iter().enumerate() {
        write_hart(out, hart, *end)?;
    }
    Ok(())
}

/// Whether a line ends behind the byte of this number.
fn is_last_in_line(count: usize, number: usize) -> bool
    requires { number < count }
    ensures { result ≡ ((number % 32 == 31) || (number + 1 == count)) }
{
    number % IN_LINE == IN_LINE - 1 || number + 1 == count
}

fn write_byte(out: &mut String, count: usize, number: usize, byte: u8) -> Result<(), AllocError>
    requires { number < count }
    ensures { OnOk result (string_bytes out.new ≡ string_bytes out.old ++ byte_text count number byte) }
{
    let high = byte / 16;
    let low = byte % 16;
    if is_last_in_line(count, number) {
        write!(out, "{high:x}{low:x}\n")
    } else {
        write!(out, "{high:x}{low:x}")
    }
}

fn write_bytes(out: &mut String, bytes: &[u8]) -> Result<(), AllocError>
    ensures { OnOk result (string_bytes out.new ≡ string_bytes out.old ++ byte_lines bytes.now) }
{
    let count = bytes.len();
    for (number, byte) in bytes.iter().enumerate() {
        write_byte(out, count, number, *byte)?;
    }
    Ok(())
}

/// The text of a run of so many harts and steps: the ends of the harts by their index in `ends`, and the bytes that the
/// guest sent outside.
pub fn text(
    alloc: Global,
    harts: u8,
    steps: u32,
    ends: &[HartEnd],
    output: &[u8],
) -> Result<Vec<u8>, NoMemory>
    ensures { IfOk result (λ text. text.items ≡ run_text harts steps ends.now output.now) }
{
    let mut out = String::new(alloc);
    let count = output.len();
    write!(out, "PRUN 1 harts {harts} steps {steps}\n")?;
    write_harts(&mut out, ends)?;
    write!(out, "output {count}\n")?;
    write_bytes(&mut out, output)?;
    out.push_str("end\n")?;
    Ok(out.into_bytes())
}
