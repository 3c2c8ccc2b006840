// The lines of records and of classes.
ghost use Rattle.std.specs.Prelude.{◌≡◌, ◌≤◌, ◌++◌, OnOk};
ghost use Rattle.std.specs.List.{flat_map};
ghost use Rattle.lot_calls.specs.Lots.{items};
ghost use Rattle.lines.specs.Lines.{spelled};
ghost use Rattle.report.specs.Output.{line_for, listed, class_line, class_lines};

use faults::Fault;
use intake::Taken;
use lines::Line;
use lot_calls::Lot;
use std::alloc::AllocError;

// The line of a record: a requirement that was added has none.
pub(crate) fn line_for(answer: Result<Taken, Fault>) -> Option<Line>
    ensures { result ≡ line_for answer }
{
    match answer {
        Ok(Taken::Added) => None,
        Ok(Taken::Judged(number, judgement)) => Some(Line::Item { number, judgement }),
        Err(fault) => Some(Line::Refused(fault)),
    }
}

// Appends a line, if there is one. A match, since each arm is the answer, which `map_or(Ok(()), ..)` would say no more plainly.
pub(crate) fn push_if(line: Option<Line>, out: &mut Vec<u8>) -> Result<(), AllocError>
    ensures { OnOk result (out.new.items ≡ out.old.items ++ flat_map spelled (listed line)) }
{
    match line {
        Some(line) => line.push(out),
        None => Ok(()),
    }
}

// The line of a class from 1 to 9, if it has an entry.
fn class_line(lot: &Lot<'_>, class: u8) -> Option<Line>
    requires { (1 ≤ class) × (class ≤ 9) }
    ensures { result ≡ class_line (items lot.now) class }
{
    let row = lot.tally(i64::from(class)).ok()?;
    (!row.is_empty()).then_some(Line::Class { class, row })
}

// Appends the lines of the classes that have an entry, the lowest class first.
pub(crate) fn push_classes(lot: &Lot<'_>, out: &mut Vec<u8>) -> Result<(), AllocError>
    ensures { OnOk result (out.new.items ≡ out.old.items ++ flat_map spelled (class_lines (items lot.now))) }
{
    for class in 1..=9 {
        push_if(class_line(lot, class), out)?;
    }
    Ok(())
}
