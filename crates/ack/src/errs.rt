// The ERR segments of findings, one for each. What does not fit is counted all the same, so that a run without room measures.
ghost use Rattle.std.specs.Prelude.{◌≡◌, false};
ghost use Rattle.grade.specs.Sheet.{Sheeted};
ghost use Rattle.ack.specs.Output.{Adds};
ghost use Rattle.ack.specs.Layout.{err_line, ended};
ghost use Rattle.ack.specs.Pieces.{errs, Puts};

use crate::layout::put_err;
use crate::measure::err_length;
use crate::output::Output;
use grade::finding::Finding;
use grade::sheet::{Sheet, next_sheet};
use hl7::place::Delims;

// The ERR of a finding; where nothing of it would fit, its length is all that is asked.
// A goal is named after its test: found by a lemma, and not by a file that cites the name, it can be proved of another test of the same meaning too.
#[tactic(auto, using(crate::proofs::Adding::adds_passed))]
pub(crate) fn put_finding(out: &mut Output<'_>, d: Delims, finding: Finding)
    ensures { Adds out.old (ended (err_line d finding)) out.new }
{
    if out.bytes.len() <= out.at {
        out.pass(err_length(finding));
    } else {
        // copied only here, so that a finding which is only measured does not go through memory
        let marks = d;
        let found = finding;
        put_err(out, marks, found);
    }
}

// The ERRs of findings, one after the other.
pub(crate) fn put_each(out: &mut Output<'_>, d: Delims, findings: &[Finding])
    ensures { Adds out.old (errs d findings.now) out.new }
{
    for finding in findings {
        put_finding(out, d, *finding);
    }
}

// The ERRs of all findings from a sheet on; the answer is whether an E or W is among them.
pub(crate) fn put_errs(out: &mut Output<'_>, m: &[u8], book: &[u8], first: Sheet) -> bool
    requires { Sheeted m.now book.now first × (first.brief ≡ false) }
    ensures { Puts m.now book.now first out.old out.new result }
{
    let d = first.by.d;
    let mut sheet = first;
    loop {
        put_each(out, d, &sheet.lines[..sheet.used]);
        if sheet.ended {
            return sheet.fault;
        }
        sheet = next_sheet(m, book, sheet);
    }
}
