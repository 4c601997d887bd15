//! What holds of the check of a log that is still read.
ghost use Rattle.std.specs.Prelude.{length};
ghost use Rattle.pl_event.specs.declared.log.Log.{Log};
ghost use Rattle.pl_event.specs.declared.log.Point.{Point};
ghost use Rattle.log_check.specs.declared.order_check.OrderCheck.{OrderCheck};
ghost use Rattle.log_check.specs.Answers.{NamesFirst};
ghost use Rattle.log_check.specs.Checked.{GrowsTo, IsChecked};

/// A check of all lines of a log is one of the first lines of each log that begins with them, and a pair that it named
/// is the first one there too. So a log is checked while it is read.
pub fn grown_checks()
    ensures checked { (check : OrderCheck) (old new : Log) → GrowsTo old new →
        IsChecked check old (length old.lines) → IsChecked check new (length old.lines) }
    ensures named { (old new : Log) (earlier later : Point) → GrowsTo old new →
        NamesFirst old earlier later → NamesFirst new earlier later }
{}
