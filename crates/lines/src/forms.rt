// The four kinds of line.
ghost use Rattle.std.specs.Prelude.{◌≡◌, ◌++◌, map, OnOk};
ghost use Rattle.lines.specs.Lines.{written, fields_of, spelled};

use crate::cells::{Cell, push_line};
use faults::Fault;
use judging::Judgement;
use lot::Row;
use std::alloc::AllocError;

// A line of the output.
#[derive(Clone, Copy)]
pub enum Line {
    Header,
    Item { number: u32, judgement: Judgement },
    Refused(Fault),
    Class { class: u8, row: Row },
}

impl Line {
    // The five fields of the line.
    fn cells(self) -> [Cell; 5]
        ensures { map written result ≡ fields_of self }
    {
        match self {
            Line::Header => [
                Cell::Word("line"),
                Cell::Word("key"),
                Cell::Word("outcome"),
                Cell::Word("floor"),
                Cell::Word("ceiling"),
            ],
            Line::Item { number, judgement } => [
                Cell::Word("item"),
                Cell::Number(u64::from(number)),
                Cell::Word(judgement.verdict.word()),
                Cell::Number(u64::from(judgement.bracket.floor)),
                Cell::Number(u64::from(judgement.bracket.ceiling)),
            ],
            Line::Refused(fault) => [
                Cell::Word("refused"),
                Cell::Number(u64::from(fault.record)),
                Cell::Number(u64::from(fault.refusal.number())),
                Cell::Number(u64::from(fault.refusal.layer())),
                Cell::Number(u64::from(fault.field)),
            ],
            Line::Class { class, row } => [
                Cell::Word("class"),
                Cell::Number(u64::from(class)),
                Cell::Number(u64::from(row.passes)),
                Cell::Number(row.lesser),
                Cell::Number(row.greater),
            ],
        }
    }

    // Appends the line. Without memory the output is unfinished.
    pub fn push(self, out: &mut Vec<u8>) -> Result<(), AllocError>
        ensures { OnOk result (out.new.items ≡ out.old.items ++ spelled self) }
    {
        push_line(out, &self.cells())
    }
}

#[cfg(test)]
mod tests {
    use super::*;
    use faults::Refusal;
    use judging::{Bracket, Verdict};
    use std::process::Abort;
    use std::test::Fail;

    // The line stands after what was there, byte by byte. As in the tests of `numerals`: a helper of tests is not seen from another crate.
    fn check_line(rt: &(impl Abort + AllocGlobal), line: Line, due: &[u8]) -> Result<(), Fail> {
        let mut out = Vec::new(rt.alloc());
        out.push(b'=')?;
        line.push(&mut out)?;
        assert!(rt; out.as_slice().starts_with(b"=") && out.as_slice().ends_with(due));
        assert_eq!(rt; out.len(), due.len().saturating_add(1));
        Ok(())
    }

    // The line of item 7 under a verdict.
    fn check_item(
        rt: &(impl Abort + AllocGlobal),
        verdict: Verdict,
        due: &[u8],
    ) -> Result<(), Fail> {
        let bracket = Bracket {
            floor: 0,
            ceiling: 975_000,
        };
        let judgement = Judgement { verdict, bracket };
        let number = 7;
        check_line(rt, Line::Item { number, judgement }, due)
    }

    #[test]
    fn header(rt: HostRuntime) -> Result<(), Fail> {
        check_line(&rt, Line::Header, b"line,key,outcome,floor,ceiling\r\n")
    }

    #[test]
    fn items(rt: HostRuntime) -> Result<(), Fail> {
        check_item(&rt, Verdict::Pass, b"item,7,pass,0,975000\r\n")?;
        check_item(&rt, Verdict::ConditionalPass, b"item,7,cpass,0,975000\r\n")?;
        check_item(&rt, Verdict::ConditionalFail, b"item,7,cfail,0,975000\r\n")?;
        check_item(&rt, Verdict::Fail, b"item,7,fail,0,975000\r\n")
    }

    #[test]
    fn refused(rt: HostRuntime) -> Result<(), Fail> {
        let fault = Fault {
            refusal: Refusal::NoOffset,
            record: 12,
            field: 5,
        };
        check_line(&rt, Line::Refused(fault), b"refused,12,31,4,5\r\n")?;
        let direct = Fault::direct(Refusal::TextTooLong);
        check_line(&rt, Line::Refused(direct), b"refused,0,1,1,0\r\n")
    }

    #[test]
    fn class(rt: HostRuntime) -> Result<(), Fail> {
        let row = Row {
            passes: 3,
            conditional_passes: 1,
            conditional_fails: 2,
            fails: 4,
            lesser: 250,
            greater: 4_294_967_296_000_000,
        };
        let line = Line::Class { class: 9, row };
        check_line(&rt, line, b"class,9,3,250,4294967296000000\r\n")
    }
}
