//! A log's text that grows line by line.
ghost use Rattle.std.specs.Prelude.{◌≡◌, [], length, IfOk, OnOk, string_bytes};
ghost use Rattle.pl_event.specs.declared.log.Log.{Log};
ghost use Rattle.log_grammar.specs.Spelling.{log_spelling};
ghost use Rattle.log_text.specs.Reading.{with_line};
ghost use Rattle.log_text.specs.Writing.{log_of};

use crate::write::{write_header, write_line, write_pages};
use pl_base::NoMemory;
use pl_event::{Line, PageRun};
use std::alloc::Global;

/// The text of a log of so many harts, with these blocks and pages, that has no line yet.
pub fn begin_log(alloc: Global, harts: u8, block: u8, pages: &[PageRun]) -> Result<String, NoMemory>
    ensures { IfOk result (λ text. string_bytes text ≡ log_spelling (log_of harts block pages.now [])) }
{
    let mut text = String::new(alloc);
    write_header(&mut text, harts, block)?;
    write_pages(&mut text, pages)?;
    Ok(text)
}

/// Adds a line at the end of a log's text. Without memory a part of the line may have been added.
pub fn add_line(text: &mut String, line: &Line) -> Result<(), NoMemory>
    requires { length line.now.arcs ≡ 8 }
    ensures { OnOk result ((log : Log) → string_bytes text.old ≡ log_spelling log
        → string_bytes text.new ≡ log_spelling (with_line log line.now)) }
{
    write_line(text, line)?;
    Ok(())
}
