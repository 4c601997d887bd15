//! The lines of a report, one by one.
ghost use Rattle.std.specs.Prelude.{◌≡◌, ◌++◌, IfOk, OnOk, string_bytes};
ghost use Rattle.std.specs.List.{flat_map};
ghost use Rattle.report_text.specs.ReportText.{head_lines, finding, report_line, register_line, hart_lines, mask_lines, run_line, report_text};

use crate::runs::ByteRun;
use lifeguard::{Name, Report, ReportKind};
use pl_base::NoMemory;
use std::alloc::{AllocError, Global};

fn write_finding(out: &mut String, kind: ReportKind, addr: u32) -> Result<(), AllocError>
    ensures { OnOk result (string_bytes out.new ≡ string_bytes out.old ++ finding kind addr) }
{
    match kind {
        ReportKind::Access => write!(out, "access {addr:x}"),
        ReportKind::BadFree => write!(out, "badfree {addr:x}"),
        ReportKind::Undef => write!(out, "undef {addr:x}"),
        ReportKind::Fault => write!(out, "fault {addr:x}"),
        ReportKind::Addr => write!(out, "addr x{addr}"),
        ReportKind::Branch => write!(out, "branch x{addr}"),
        ReportKind::Jump => write!(out, "jump x{addr}"),
        ReportKind::Arg => write!(out, "arg x{addr}"),
    }
}

fn write_report(out: &mut String, report: &Report) -> Result<(), AllocError>
    ensures { OnOk result (string_bytes out.new ≡ string_bytes out.old ++ report_line report.now) }
{
    let Report {
        place: _,
        hart,
        event,
        kind,
        addr,
    } = *report;
    write!(out, "h{hart} {event} ")?;
    write_finding(out, kind, addr)?;
    out.push_str("\n")
}

fn write_register(
    out: &mut String,
    hart: usize,
    register: usize,
    mask: u8,
) -> Result<(), AllocError>
    ensures { OnOk result (string_bytes out.new ≡ string_bytes out.old ++ register_line hart register mask) }
{
    write!(out, "reg h{hart} x{register} {mask:x}\n")
}

fn write_hart(out: &mut String, hart: usize, masks: &[u8; 34]) -> Result<(), AllocError>
    ensures { OnOk result (string_bytes out.new ≡ string_bytes out.old ++ hart_lines hart masks.now) }
{
    for (register, mask) in masks.iter().enumerate() {
        if *mask != 0 {
            write_register(out, hart, register, *mask)?;
        }
    }
    Ok(())
}

fn write_run(out: &mut String, run: &ByteRun) -> Result<(), AllocError>
    ensures { OnOk result (string_bytes out.new ≡ string_bytes out.old ++ run_line run.now) }
{
    let ByteRun {
        first,
        last,
        nibble,
    } = *run;
    write!(out, "mem {first:x} {last:x} {nibble:x}\n")
}

fn write_reports(out: &mut String, reports: &[Report]) -> Result<(), AllocError>
    ensures { OnOk result (string_bytes out.new ≡ string_bytes out.old ++ flat_map report_line reports.now) }
{
    for report in reports {
        write_report(out, report)?;
    }
    Ok(())
}

fn write_masks(out: &mut String, masks: &[[u8; 34]]) -> Result<(), AllocError>
    ensures { OnOk result (string_bytes out.new ≡ string_bytes out.old ++ mask_lines masks.now) }
{
    for (hart, registers) in masks.iter().enumerate() {
        write_hart(out, hart, registers)?;
    }
    Ok(())
}

fn write_runs(out: &mut String, runs: &[ByteRun]) -> Result<(), AllocError>
    ensures { OnOk result (string_bytes out.new ≡ string_bytes out.old ++ flat_map run_line runs.now) }
{
    for run in runs {
        write_run(out, run)?;
    }
    Ok(())
}

/// The text of a report: the reports as they are given, by place; of each hart, by its index in `masks`, the registers
/// whose masks are not 0; and the runs as they are given, by address.
pub fn text(
    alloc: Global,
    name: Name,
    harts: u8,
    reports: &[Report],
    masks: &[[u8; 34]],
    runs: &[ByteRun],
) -> Result<Vec<u8>, NoMemory>
    ensures { IfOk result (λ text. text.items ≡ report_text name harts reports.now masks.now runs.now) }
{
    let mut out = String::new(alloc);
    let word = name.word();
    let count = reports.len();
    write!(out, "PREP 1 {word} harts {harts}\nreports {count}\n")?;
    write_reports(&mut out, reports)?;
    write_masks(&mut out, masks)?;
    write_runs(&mut out, runs)?;
    out.push_str("end\n")?;
    Ok(out.into_bytes())
}
