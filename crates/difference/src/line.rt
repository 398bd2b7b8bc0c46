// The lines of a rule.
ghost use Rattle.std.specs.Prelude.{cond, [], ◌∷◌};
ghost use Rattle.hl7.specs.Bytes.{among};
ghost use Rattle.ack.specs.Layout.{joined, marked};
ghost use Rattle.ack.specs.Output.{Adds};
ghost use Rattle.canonical.specs.Shown.{line_bytes, printed};
ghost use Rattle.difference.specs.Difference.{number_words, code_words, gone, rule_line, whole_line, severity_lines, number_lines, code_lines, moved_lines, changes};
ghost use Rattle.difference.specs.Ruled.{codes_in};

use crate::numbers::same_numbers;
use crate::ruled::Ruled;
use ack::output::Output;
use canonical::show::{put_kind, put_place, put_range, put_severity};
use grade::rule::{Kind, Rule};
use grade::walk::{text_after, text_part};

const LINE_FEED: u8 = 10;

// ---- words, each with a blank in front
fn put_numbers(out: &mut Output<'_>, kind: Kind)
    ensures { Adds out.old (marked 32 (number_words kind)) out.new }
{
    match kind {
        Kind::Length { low, high } => put_range(out, low, high),
        Kind::Time { digits } => out.put_number(b' ', digits as usize),
        Kind::Required | Kind::Number | Kind::Date | Kind::Code { .. } => {}
    }
}

// A code, with a mark.
fn put_code(out: &mut Output<'_>, mark: u8, code: &[u8])
    ensures { Adds out.old (32 ∷ mark ∷ code.now) out.new }
{
    out.put_byte(b' ');
    out.put_field(mark, code);
}

// A rule's codes, each with the mark.
fn put_codes(out: &mut Output<'_>, mark: u8, ruled: &Ruled<'_>)
    ensures { Adds out.old (marked 32 (code_words mark (codes_in ruled.now))) out.new }
{
    let mut from = ruled.from;
    for _i in 0..ruled.count {
        put_code(out, mark, text_part(ruled.book, from));
        from = text_after(ruled.book, from);
    }
}

// The code with the mark, unless it is one of a rule's.
fn put_unless(out: &mut Output<'_>, mark: u8, code: &[u8], other: &Ruled<'_>)
    ensures { Adds out.old (cond (among code.now (codes_in other.now)) [] (32 ∷ mark ∷ code.now)) out.new }
{
    if other.has_code(code) {
        return;
    }
    put_code(out, mark, code);
}

// Those of a rule's codes that are none of another's, each with the mark.
fn put_gone(out: &mut Output<'_>, mark: u8, ruled: &Ruled<'_>, other: &Ruled<'_>)
    ensures { Adds out.old (marked 32 (code_words mark (gone (codes_in ruled.now) (codes_in other.now)))) out.new }
{
    let mut from = ruled.from;
    for _i in 0..ruled.count {
        put_unless(out, mark, text_part(ruled.book, from), other);
        from = text_after(ruled.book, from);
    }
}

// ---- lines of a rule
// How a line begins: key, mark and number, place and kind.
fn put_head(out: &mut Output<'_>, key: &[u8], mark: u8, n: usize, rule: Rule)
    ensures { Adds out.old (joined 32 (rule_line key.now mark n rule [])) out.new }
{
    out.put(key);
    out.put_byte(b' ');
    out.put_byte(mark);
    out.put_number(b' ', n);
    put_place(out, rule.place);
    put_kind(out, rule.kind);
}

// The whole rule.
pub(crate) fn put_rule(out: &mut Output<'_>, key: &[u8], mark: u8, n: usize, ruled: &Ruled<'_>)
    ensures { Adds out.old (line_bytes (whole_line key.now mark n ruled.now.rule (codes_in ruled.now))) out.new }
{
    let rule = ruled.rule;
    put_head(out, key, mark, n, rule);
    put_severity(out, rule.severity);
    put_numbers(out, rule.kind);
    put_codes(out, mark, ruled);
    out.put_byte(LINE_FEED);
}

// Its severity, if it is another.
fn put_severities(out: &mut Output<'_>, key: &[u8], n: usize, rule: Rule, other: Rule)
    ensures { Adds out.old (printed (severity_lines key.now n rule other)) out.new }
{
    if rule.severity == other.severity {
        return;
    }
    put_head(out, key, b'~', n, rule);
    put_severity(out, rule.severity);
    out.put(b" ->");
    put_severity(out, other.severity);
    out.put_byte(LINE_FEED);
}

// Its bound's numbers, if they are others.
fn put_bounds(out: &mut Output<'_>, key: &[u8], n: usize, rule: Rule, other: Rule)
    ensures { Adds out.old (printed (number_lines key.now n rule other)) out.new }
{
    if same_numbers(rule.kind, other.kind) {
        return;
    }
    put_head(out, key, b'~', n, rule);
    put_numbers(out, rule.kind);
    out.put(b" ->");
    put_numbers(out, other.kind);
    out.put_byte(LINE_FEED);
}

// Its codes, if they are others.
fn put_sets(out: &mut Output<'_>, key: &[u8], n: usize, ruled: &Ruled<'_>, other: &Ruled<'_>)
    ensures { Adds out.old (printed (code_lines key.now n ruled.now.rule (codes_in ruled.now) (codes_in other.now))) out.new }
{
    let kept = ruled.all_among(other);
    let known = other.all_among(ruled);
    if kept & known {
        return;
    }
    put_head(out, key, b'~', n, ruled.rule);
    put_gone(out, b'-', ruled, other);
    put_gone(out, b'+', other, ruled);
    out.put_byte(LINE_FEED);
}

// Its number, if it is another.
fn put_moved(out: &mut Output<'_>, key: &[u8], n: usize, m: usize, rule: Rule)
    ensures { Adds out.old (printed (moved_lines key.now n m rule)) out.new }
{
    if n == m {
        return;
    }
    out.put(key);
    out.put(b" #");
    out.put_number(b' ', n);
    out.put(b" ->");
    out.put_number(b' ', m);
    put_place(out, rule.place);
    put_kind(out, rule.kind);
    out.put_byte(LINE_FEED);
}

// All that became of a rule that has a counterpart.
pub(crate) fn put_changes(
    out: &mut Output<'_>,
    key: &[u8],
    n: usize,
    m: usize,
    ruled: &Ruled<'_>,
    other: &Ruled<'_>,
)
    ensures { Adds out.old (printed (changes key.now n m ruled.now.rule other.now.rule (codes_in ruled.now) (codes_in other.now))) out.new }
{
    put_severities(out, key, n, ruled.rule, other.rule);
    put_bounds(out, key, n, ruled.rule, other.rule);
    put_sets(out, key, n, ruled, other);
    put_moved(out, key, n, m, ruled.rule);
}
