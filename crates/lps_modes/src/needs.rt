ghost use Rattle.std.specs.Prelude.{◌≡◌, ◌++◌, [], OnOk, if◌then◌else◌};
ghost use Rattle.lps_model.specs.Known.{argument_needs, built_needs, cond_needs, declared_needs, item_needs, kind_needs, lit_needs, marked_vars, same_needs};
ghost use Rattle.lps_model.specs.Declarations.{decl_among};
ghost use Rattle.lps_model.specs.VariableLists.{args_vars, term_vars};
ghost use Rattle.lps_modes.specs.Scopes.{scope_of};

use crate::known::are_known;
use crate::scope::Scope;
use crate::variables::{
    append_args, append_atom, append_expr, append_exprs, append_term, append_terms,
};
use lps_model::Kinds;
use lps_terms::{Atom, Built, Cond, Item, Kind, Lit, Mode, Term};
use std::alloc::{AllocError, Global};

fn append_argument_needs(mode: Mode, arg: &Term, out: &mut Vec<u32>) -> Result<(), AllocError>
    ensures { OnOk result (out.new.items ≡ out.old.items ++ argument_needs mode arg.now) }
{
    match mode {
        Mode::Plus => append_term(arg, out),
        Mode::Minus => Ok(()),
        Mode::Star => append_term(arg, out),
    }
}

/// Appends the variables of the arguments that are marked `+` or `*`.
fn append_marked(modes: &[Mode], args: &[Term], out: &mut Vec<u32>) -> Result<(), AllocError>
    ensures { OnOk result (out.new.items ≡ out.old.items ++ marked_vars modes.now args.now) }
{
    let Some((mode, modes)) = modes.split_first() else {
        return Ok(());
    };
    let Some((arg, args)) = args.split_first() else {
        return Ok(());
    };
    append_argument_needs(*mode, arg, out)?;
    append_marked(modes, args, out)
}

fn append_planned(is_planned: bool, args: &[Term], out: &mut Vec<u32>) -> Result<(), AllocError>
    ensures { OnOk result (out.new.items ≡ out.old.items ++ (if is_planned then args_vars args.now else [])) }
{
    if is_planned {
        append_args(args, out)
    } else {
        Ok(())
    }
}

fn append_kind_needs(
    is_planned: bool,
    kind: Kind,
    modes: &[Mode],
    args: &[Term],
    out: &mut Vec<u32>,
) -> Result<(), AllocError>
    ensures { OnOk result (out.new.items ≡ out.old.items ++ kind_needs is_planned kind modes.now args.now) }
{
    match kind {
        Kind::Fluent => Ok(()),
        Kind::Event => Ok(()),
        Kind::Action => append_planned(is_planned, args, out),
        Kind::Timeless => append_marked(modes, args, out),
        Kind::Derived => append_marked(modes, args, out),
        Kind::Macro => append_marked(modes, args, out),
    }
}

/// Appends the variables that a positive literal, an event, an action or a call needs.
pub fn append_atom_needs(
    kinds: &Kinds,
    is_planned: bool,
    atom: &Atom,
    out: &mut Vec<u32>,
) -> Result<(), AllocError>
    ensures { OnOk result (out.new.items ≡ out.old.items ++ declared_needs is_planned (decl_among kinds.now atom.now.name) atom.now.args) }
{
    match kinds.decl(&atom.name) {
        Some(decl) => append_kind_needs(
            is_planned,
            decl.kind,
            decl.modes.as_slice(),
            atom.args.as_slice(),
            out,
        ),
        None => Ok(()),
    }
}

fn append_lit_needs(scope: &Scope, lit: &Lit, out: &mut Vec<u32>) -> Result<(), AllocError>
    ensures { OnOk result (out.new.items ≡ out.old.items ++ lit_needs (scope_of scope.now) lit.now) }
{
    if lit.negated {
        append_atom(&lit.atom, out)
    } else {
        append_atom_needs(scope.kinds, scope.is_planned, &lit.atom, out)
    }
}

fn append_same_needs(
    known: &[u32],
    left: &Term,
    right: &Term,
    out: &mut Vec<u32>,
) -> Result<(), AllocError>
    ensures { OnOk result (out.new.items ≡ out.old.items ++ same_needs known.now (term_vars left.now) (term_vars right.now)) }
{
    let mut lefts = Vec::new(*out.allocator());
    append_term(left, &mut lefts)?;
    let mut rights = Vec::new(*out.allocator());
    append_term(right, &mut rights)?;
    if are_known(known, lefts.as_slice()) || are_known(known, rights.as_slice()) {
        return Ok(());
    }
    append_terms(left, right, out)
}

fn append_built_needs(known: &[u32], built: &Built, out: &mut Vec<u32>) -> Result<(), AllocError>
    ensures { OnOk result (out.new.items ≡ out.old.items ++ built_needs known.now built.now) }
{
    match built {
        Built::Same(left, right) => append_same_needs(known, left, right, out),
        Built::Differ(left, right) => append_terms(left, right, out),
        Built::Is(_, right) => append_expr(right, out),
        Built::Compare(_, left, right) => append_exprs(left, right, out),
    }
}

/// Appends the variables that a condition needs.
pub fn append_cond_needs(
    scope: &Scope,
    known: &[u32],
    cond: &Cond,
    out: &mut Vec<u32>,
) -> Result<(), AllocError>
    ensures { OnOk result (out.new.items ≡ out.old.items ++ cond_needs (scope_of scope.now) known.now cond.now) }
{
    match cond {
        Cond::Lit(lit) => append_lit_needs(scope, lit, out),
        Cond::Built(built) => append_built_needs(known, built, out),
    }
}

/// Appends the variables that an item needs.
pub fn append_item_needs(
    scope: &Scope,
    known: &[u32],
    item: &Item,
    out: &mut Vec<u32>,
) -> Result<(), AllocError>
    ensures { OnOk result (out.new.items ≡ out.old.items ++ item_needs (scope_of scope.now) known.now item.now) }
{
    match item {
        Item::At(lit, _) => append_lit_needs(scope, lit, out),
        Item::Bare(lit) => append_lit_needs(scope, lit, out),
        Item::Built(built) => append_built_needs(known, built, out),
        Item::Span(atom, _, _) => append_atom_needs(scope.kinds, scope.is_planned, atom, out),
        Item::Con(_) => Ok(()),
    }
}
