//! The statements of a telling program.
ghost use Rattle.std.specs.Prelude.{◌≡◌, ◌++◌, IfOk, OnOk, ◌∷◌, [], length};
ghost use Rattle.rank_text.specs.Checker.SeenLines.{forms_seen};
ghost use Rattle.rank_text.specs.Grammar.Forms.{var_form};
ghost use Rattle.rank_text.specs.Grammar.SeenForms.{form_seen};
ghost use Rattle.telling.specs.Lines.{repeated};
ghost use Rattle.telling.specs.Telling.{telling_forms, telling_lines, with_receptions, with_sends, with_told};

use crate::added::Added;
use crate::lined_forms::LinedForms;
use crate::program::Telling;
use crate::program::copied::copied_form;
use crate::program::tells::{
    put_barrier, put_broadcast, put_evaluated, put_message, put_reduction, put_send,
};
use crate::statements::put;
use limits::Heap;
use rank_text::grammar::Form;
use std::alloc::AllocError;

fn put_same(alloc: Heap, to: &mut Vec<Form, Heap>, form: &Form) -> Result<(), AllocError>
    ensures { OnOk result (forms_seen to.new.items ≡ forms_seen to.old.items ++ form_seen form.now ∷ []) }
{
    let form = copied_form(alloc, form)?;
    put(to, form)
}

/// Puts the statements that stand for one, if sends are told.
fn put_with_sends(
    alloc: Heap,
    to: &mut Vec<Form, Heap>,
    added: &Added,
    forms: &[Form],
    form: &Form,
) -> Result<(), AllocError>
    ensures { OnOk result (forms_seen to.new.items ≡ forms_seen to.old.items ++ with_sends added.now (forms_seen forms.now) (form_seen form.now)) }
{
    match form {
        Form::Send(destination, tag, payload) => {
            put_same(alloc, to, form)?;
            put_send(alloc, to, added, forms, destination, tag, payload)
        }
        Form::Print(value) => put_evaluated(alloc, to, added, value),
        Form::Barrier => put_barrier(alloc, to),
        Form::Bcast(root, buffer) => put_broadcast(alloc, to, added, forms, root, *buffer),
        Form::Reduce(reduction, root, value, name) => {
            put_reduction(alloc, to, added, *reduction, root, value, *name)
        }
        Form::Var(_) | Form::Array(..) | Form::Let(..) | Form::LetItem(..) => {
            put_same(alloc, to, form)
        }
        Form::If(_) | Form::Else | Form::End | Form::While(_) => put_same(alloc, to, form),
        Form::Recv(..) | Form::Probe(..) | Form::TryProbe(..) => put_same(alloc, to, form),
    }
}

/// Puts the statements that stand for one, if receptions are told.
fn put_with_receptions(
    alloc: Heap,
    to: &mut Vec<Form, Heap>,
    added: &Added,
    forms: &[Form],
    form: &Form,
) -> Result<(), AllocError>
    ensures { OnOk result (forms_seen to.new.items ≡ forms_seen to.old.items ++ with_receptions added.now (forms_seen forms.now) (form_seen form.now)) }
{
    match form {
        Form::Recv(_, _, buffer) => {
            put_same(alloc, to, form)?;
            put_message(alloc, to, added, forms, *buffer)
        }
        Form::Print(value) => put_evaluated(alloc, to, added, value),
        Form::Var(_) | Form::Array(..) | Form::Let(..) | Form::LetItem(..) => {
            put_same(alloc, to, form)
        }
        Form::If(_) | Form::Else | Form::End | Form::While(_) => put_same(alloc, to, form),
        Form::Send(..) | Form::Probe(..) | Form::TryProbe(..) => put_same(alloc, to, form),
        Form::Barrier | Form::Bcast(..) | Form::Reduce(..) => put_same(alloc, to, form),
    }
}

fn put_with_told(
    alloc: Heap,
    to: &mut Vec<Form, Heap>,
    telling: Telling,
    added: &Added,
    forms: &[Form],
    form: &Form,
) -> Result<(), AllocError>
    ensures { OnOk result (forms_seen to.new.items ≡ forms_seen to.old.items ++ with_told telling added.now (forms_seen forms.now) (form_seen form.now)) }
{
    match telling {
        Telling::Sends => put_with_sends(alloc, to, added, forms, form),
        Telling::Receptions => put_with_receptions(alloc, to, added, forms, form),
    }
}

/// The variable of the program's own, which is declared on no line of the text.
#[tactic(auto, using(crate::proofs::Putting::not_more))]
fn declared(alloc: Heap, added: &Added) -> Result<LinedForms, AllocError>
    ensures forms { IfOk result (λ all. forms_seen all.forms.items ≡ var_form added.now.reply ∷ []) }
    ensures lines { IfOk result (λ all. all.lines.items ≡ 0 ∷ []) }
    ensures each { IfOk result (λ all. length all.lines.items ≡ length all.forms.items) }
{
    let mut all = LinedForms::new(alloc);
    put(&mut all.forms, Form::Var(added.reply))?;
    all.stand_on(0)?;
    Ok(all)
}

/// Puts the statements that stand for one, which stand on its line.
#[tactic(auto, using(crate::proofs::Putting::not_more))]
fn put_on(
    alloc: Heap,
    to: &mut LinedForms,
    telling: Telling,
    added: &Added,
    forms: &[Form],
    line: usize,
    form: &Form,
) -> Result<(), AllocError>
    requires { length to.old.lines.items ≡ length to.old.forms.items }
    ensures forms { OnOk result (forms_seen to.new.forms.items ≡ forms_seen to.old.forms.items ++ with_told telling added.now (forms_seen forms.now) (form_seen form.now)) }
    ensures lines { OnOk result (to.new.lines.items ≡ to.old.lines.items ++ repeated line (length (with_told telling added.now (forms_seen forms.now) (form_seen form.now)))) }
    ensures each { OnOk result (length to.new.lines.items ≡ length to.new.forms.items) }
{
    put_with_told(alloc, &mut to.forms, telling, added, forms, form)?;
    to.stand_on(line)?;
    Ok(())
}

/// The statements of the telling program, made of the text's, which stand on these lines.
pub(crate) fn telling_forms(
    alloc: Heap,
    telling: Telling,
    added: &Added,
    numbers: &[usize],
    forms: &[Form],
) -> Result<LinedForms, AllocError>
    requires { length numbers.now ≡ length forms.now }
    ensures forms { IfOk result (λ all. forms_seen all.forms.items ≡ telling_forms telling added.now (forms_seen forms.now)) }
    ensures lines { IfOk result (λ all. all.lines.items ≡ telling_lines telling added.now numbers.now (forms_seen forms.now)) }
{
    let mut all = declared(alloc, added)?;
    let mut numbers_left = numbers;
    let mut left = forms;
    while let [form, more @ ..] = left {
        let [number, more_numbers @ ..] = numbers_left else {
            return Ok(all);
        };
        put_on(alloc, &mut all, telling, added, forms, *number, form)?;
        numbers_left = more_numbers;
        left = more;
    }
    Ok(all)
}
