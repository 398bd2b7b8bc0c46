// Sections that both books have.
ghost use mathlib.Core.List.{flat_map};
ghost use Rattle.std.specs.Prelude.{◌<◌};
ghost use Rattle.grade.specs.Standing.{rules_in};
ghost use Rattle.grade.specs.Strict.{count_from};
ghost use Rattle.ack.specs.Output.{Adds};
ghost use Rattle.canonical.specs.Shown.{printed};
ghost use Rattle.difference.specs.Difference.{spots, old_lines, new_lines, section_lines};
ghost use Rattle.difference.specs.Sides.{held};

use crate::line::{put_changes, put_rule};
use crate::side::Side;
use ack::output::Output;

// What became of the old section's rule with a number from 0.
fn put_old_rule(out: &mut Output<'_>, key: &[u8], old: &Side<'_>, new: &Side<'_>, i: usize)
    requires { i < old.now.section.rule_count }
    ensures { Adds out.old (printed (old_lines (held key.now old.now) (held key.now new.now) i)) out.new }
{
    let ruled = old.ruled(i);
    match old.counterpart(new, i) {
        Some(m) => put_changes(out, key, i + 1, m + 1, &ruled, &new.ruled(m)),
        None => put_rule(out, key, b'-', i + 1, &ruled),
    }
}

// The old rules, and below the new ones: one loop over a closure would be longer than the two.
fn put_old_rules(out: &mut Output<'_>, key: &[u8], old: &Side<'_>, new: &Side<'_>)
    ensures { Adds out.old (printed (flat_map (old_lines (held key.now old.now) (held key.now new.now)) (count_from 0 old.now.section.rule_count))) out.new }
{
    for i in 0..old.section.rule_count {
        put_old_rule(out, key, old, new, i);
    }
}

// The new section's rule with a number from 0, unless it is a counterpart.
fn put_new_rule(out: &mut Output<'_>, key: &[u8], old: &Side<'_>, new: &Side<'_>, i: usize)
    requires { i < new.now.section.rule_count }
    ensures { Adds out.old (printed (new_lines key.now (spots (rules_in old.now.book.now old.now.section)) (held key.now new.now) i)) out.new }
{
    match new.counterpart(old, i) {
        Some(_) => {}
        None => put_rule(out, key, b'+', i + 1, &new.ruled(i)),
    }
}

fn put_new_rules(out: &mut Output<'_>, key: &[u8], old: &Side<'_>, new: &Side<'_>)
    ensures { Adds out.old (printed (flat_map (new_lines key.now (spots (rules_in old.now.book.now old.now.section)) (held key.now new.now)) (count_from 0 new.now.section.rule_count))) out.new }
{
    for i in 0..new.section.rule_count {
        put_new_rule(out, key, old, new, i);
    }
}

// The rules of both, under their key.
pub(crate) fn put_both(out: &mut Output<'_>, key: &[u8], old: &Side<'_>, new: &Side<'_>)
    ensures { Adds out.old (printed (section_lines (held key.now old.now) (held key.now new.now))) out.new }
{
    put_old_rules(out, key, old, new);
    put_new_rules(out, key, old, new);
}
