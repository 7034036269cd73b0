//! The forms of the words, as `clap` has them.
ghost use Rattle.std.specs.Prelude.{◌≡◌, IfOk, map, true, false};
ghost use Rattle.clap.specs.Words.{app_of, rule_of, with_subcommand, new_rule};
ghost use Rattle.clap.specs.declared.builder.command.Command.TheViews.{out-Command as fields_of};
ghost use Rattle.coyotos_words.specs.Forms.{forms, top, walk_form, make_form, back_form, with_bare};

use crate::command::{BARE_COMMANDS, Command};
use clap::Arg;
use std::alloc::{AllocError, Global};

/// All forms. The words begin behind the program's name, and `clap` answers nothing by itself.
pub(crate) fn forms<'a>(alloc: Global) -> Result<clap::Command<'a>, AllocError>
    ensures { IfOk result (λ r. app_of r ≡ forms) }
{
    let walk = with_form(top(alloc), walk_form(alloc)?)?;
    let make = with_form(walk, make_form(alloc)?)?;
    let back = with_form(make, back_form(alloc)?)?;
    with_bare(alloc, back, &BARE_COMMANDS)
}

fn top<'a>(alloc: Global) -> clap::Command<'a>
    ensures { app_of result ≡ top }
{
    clap::Command::new(alloc, "coyotos")
        .no_binary_name(true)
        .disable_help_flag(true)
        .disable_help_subcommand(true)
        .disable_version_flag(true)
        .subcommand_required(true)
}

/// A form of one word for each of the table.
fn with_bare<'a>(
    alloc: Global,
    top: clap::Command<'a>,
    table: &[(&'static str, Command)],
) -> Result<clap::Command<'a>, AllocError>
    ensures { IfOk result (λ r.
        app_of r ≡ with_bare (app_of top.entry) (map (λ e. e.0.now) table.now)) }
{
    let mut top = top;
    for entry in table {
        top = with_form(top, clap::Command::new(alloc, entry.0))?;
    }
    Ok(top)
}

fn with_form<'a>(
    top: clap::Command<'a>,
    form: clap::Command<'a>,
) -> Result<clap::Command<'a>, AllocError>
    requires { (fields_of form).has_globals ≡ false }
    ensures { IfOk result (λ r.
        app_of r ≡ with_subcommand (app_of top.entry) (app_of form.entry).top) }
{
    top.subcommand(form)
}

/// `walk P KIND ADDR`.
fn walk_form<'a>(alloc: Global) -> Result<clap::Command<'a>, AllocError>
    ensures shape { IfOk result (λ r. (app_of r).top ≡ walk_form) }
    ensures local { IfOk result (λ r. (fields_of r).has_globals ≡ false) }
{
    clap::Command::new(alloc, "walk")
        .arg(wanted(alloc, "process"))?
        .arg(wanted(alloc, "kind"))?
        .arg(wanted(alloc, "address"))
}

/// `make N` and `make N summary`.
fn make_form<'a>(alloc: Global) -> Result<clap::Command<'a>, AllocError>
    ensures shape { IfOk result (λ r. (app_of r).top ≡ make_form) }
    ensures local { IfOk result (λ r. (fields_of r).has_globals ≡ false) }
{
    clap::Command::new(alloc, "make")
        .arg(wanted(alloc, "number"))?
        .arg(Arg::new(alloc, "summary"))
}

/// `back N`.
fn back_form<'a>(alloc: Global) -> Result<clap::Command<'a>, AllocError>
    ensures shape { IfOk result (λ r. (app_of r).top ≡ back_form) }
    ensures local { IfOk result (λ r. (fields_of r).has_globals ≡ false) }
{
    clap::Command::new(alloc, "back").arg(wanted(alloc, "number"))
}

/// A place that has to be filled.
fn wanted<'a>(alloc: Global, id: &'static str) -> Arg<'a>
    ensures rule { rule_of result ≡ record (new_rule id.now) { required = true } }
    ensures local { result.global ≡ false }
{
    Arg::new(alloc, id).required(true)
}
