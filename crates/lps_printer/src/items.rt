ghost use Rattle.std.specs.Prelude.{◌≡◌, ◌++◌, map, OnOk};
ghost use Rattle.lps_printer.specs.Items.{con_text, cond_text, if_conds_text, item_text, items_text, lit_text, plus_text, time_rel_text};
ghost use Rattle.lps_printer.specs.Terms.{listed};

use crate::expressions::append_built;
use crate::terms::{append_atom, append_name, append_where};
use lps_terms::{Con, Cond, Item, Lit, Name, TimeRel};
use std::alloc::AllocError;

fn append_lit(names: &[Name], lit: &Lit, out: &mut Vec<u8>) -> Result<(), AllocError>
    ensures { OnOk result (out.new.items ≡ out.old.items ++ lit_text names.now lit.now) }
{
    append_where(lit.negated, b"not ", out)?;
    append_atom(names, &lit.atom, out)
}

fn append_time_rel(rel: TimeRel, out: &mut Vec<u8>) -> Result<(), AllocError>
    ensures { OnOk result (out.new.items ≡ out.old.items ++ time_rel_text rel) }
{
    match rel {
        TimeRel::Less => out.extend_from_slice(b" < "),
        TimeRel::AtMost => out.extend_from_slice(b" =< "),
        TimeRel::Equal => out.extend_from_slice(b" = "),
        TimeRel::AtLeast => out.extend_from_slice(b" >= "),
        TimeRel::Greater => out.extend_from_slice(b" > "),
    }
}

/// What is added to the right side of a constraint; nothing for 0.
fn append_plus(plus: i64, out: &mut Vec<u8>) -> Result<(), AllocError>
    ensures { OnOk result (out.new.items ≡ out.old.items ++ plus_text plus) }
{
    if plus == 0 {
        return Ok(());
    }
    if plus > 0 {
        out.extend_from_slice(b" + ")?;
    } else {
        out.extend_from_slice(b" - ")?;
    }
    let text = plus.unsigned_abs().to_string(*out.allocator())?;
    out.extend_from_slice(text.as_bytes())
}

fn append_con(times: &[Name], con: &Con, out: &mut Vec<u8>) -> Result<(), AllocError>
    ensures { OnOk result (out.new.items ≡ out.old.items ++ con_text times.now con.now) }
{
    append_name(times, con.left.0, out)?;
    append_time_rel(con.rel, out)?;
    append_name(times, con.right.0, out)?;
    append_plus(con.plus, out)
}

fn append_item(
    names: &[Name],
    times: &[Name],
    item: &Item,
    out: &mut Vec<u8>,
) -> Result<(), AllocError>
    ensures { OnOk result (out.new.items ≡ out.old.items ++ item_text names.now times.now item.now) }
{
    match item {
        Item::At(lit, time) => {
            append_lit(names, lit, out)?;
            out.extend_from_slice(b" at ")?;
            append_name(times, time.0, out)
        }
        Item::Bare(lit) => append_lit(names, lit, out),
        Item::Built(built) => append_built(names, built, out),
        Item::Span(atom, from, to) => {
            append_atom(names, atom, out)?;
            out.extend_from_slice(b" from ")?;
            append_name(times, from.0, out)?;
            out.extend_from_slice(b" to ")?;
            append_name(times, to.0, out)
        }
        Item::Con(con) => append_con(times, con, out),
    }
}

/// A sequence.
pub fn append_items(
    names: &[Name],
    times: &[Name],
    items: &[Item],
    out: &mut Vec<u8>,
) -> Result<(), AllocError>
    ensures { OnOk result (out.new.items ≡ out.old.items ++ items_text names.now times.now items.now) }
{
    let mut later = false;
    for item in items {
        append_where(later, b", ", out)?;
        append_item(names, times, item, out)?;
        later = true;
    }
    Ok(())
}

fn append_cond(names: &[Name], cond: &Cond, out: &mut Vec<u8>) -> Result<(), AllocError>
    ensures { OnOk result (out.new.items ≡ out.old.items ++ cond_text names.now cond.now) }
{
    match cond {
        Cond::Lit(lit) => append_lit(names, lit, out),
        Cond::Built(built) => append_built(names, built, out),
    }
}

fn append_conds(names: &[Name], conds: &[Cond], out: &mut Vec<u8>) -> Result<(), AllocError>
    ensures { OnOk result (out.new.items ≡ out.old.items ++ listed (map (cond_text names.now) conds.now)) }
{
    let mut later = false;
    for cond in conds {
        append_where(later, b", ", out)?;
        append_cond(names, cond, out)?;
        later = true;
    }
    Ok(())
}

/// The conditions of a law or a clause, where there are any.
pub fn append_if_conds(names: &[Name], conds: &[Cond], out: &mut Vec<u8>) -> Result<(), AllocError>
    ensures { OnOk result (out.new.items ≡ out.old.items ++ if_conds_text names.now conds.now) }
{
    match conds {
        [] => Ok(()),
        _ => {
            out.extend_from_slice(b" if ")?;
            append_conds(names, conds, out)
        }
    }
}
