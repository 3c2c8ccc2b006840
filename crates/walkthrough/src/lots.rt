// A lot with two items, one of them struck, and the row of their class.
use faults::Fault;
use judging::{Bracket, Judgement};
use lot::Row;
use lot_run::worked_lot;
use std::io;
use steps::Stop;

fn show_item(rt: &impl Print, number: u32, judgement: Judgement) -> io::Result<()> {
    let Judgement {
        verdict,
        bracket: Bracket { floor, ceiling },
    } = judgement;
    println!(rt; "   item {number}: bracket {floor} to {ceiling}, verdict {verdict}")
}

fn show_refusal(rt: &impl Print, refused: Option<Fault>) -> io::Result<()> {
    if let Some(fault) = refused {
        println!(rt; "   item 7 again: {}", Stop::Refused(fault))?;
    }
    Ok(())
}

fn show_row(rt: &impl Print, row: &Row) -> io::Result<()> {
    let Row {
        passes,
        lesser,
        greater,
        ..
    } = *row;
    println!(rt;
        "   class 1: passes {passes}, their risks add up to {lesser} at least and {greater} at most"
    )
}

// Enters two grades, tries one of them again, and strikes it.
pub fn enter_and_strike(rt: &impl Print) -> Result<(), Stop> {
    println!(rt;
        "5. A lot of grades, each at most 1000 with a risk of at most 50000, known to within 100 steps"
    )?;
    let worked = worked_lot()?;
    show_item(rt, 7, worked.first)?;
    show_item(rt, 8, worked.second)?;
    show_refusal(rt, worked.again)?;
    show_row(rt, &worked.before)?;
    println!(rt;
        "   item 7 is struck, and item {} stands first",
        worked.shown.number
    )?;
    show_row(rt, &worked.after)?;
    Ok(())
}
