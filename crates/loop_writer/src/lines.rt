//! What stands in each form of line.

ghost use Rattle.std.specs.Prelude.{◌≡◌, ◌++◌, OnOk};
ghost use Rattle.loop_grammar.specs.declared.line.Line.TheVariants as l;
ghost use Rattle.loop_layout.specs.Canonical.{line_marks};
ghost use Rattle.loop_writer.specs.Programs.{condition, for_line};
ghost use Rattle.loop_writer.specs.Writing.{Writes};

use crate::exprs::write_expr;
use crate::heads::{write_heads, write_pattern};
use crate::marks::{write_at_word, write_keyword, write_name, write_sign, write_value};
use crate::towers::write_folded;
use loop_data::{Expr, HeadLine, TextValue, TowerExpr, Value};
use loop_tokens::{AtWord, Keyword, Sign};
use no_memory::NoMemory;

pub(crate) fn write_on_fault_skip(out: &mut Vec<u8>) -> Result<(), NoMemory>
    ensures { OnOk result (Writes out.old out.new (line_marks l.SkipFaults)) }
{
    write_name(out, "on", false)?;
    write_name(out, "fault", true)?;
    write_name(out, "skip", true)
}

pub(crate) fn write_var(out: &mut Vec<u8>, name: &TextValue, value: &Value) -> Result<(), NoMemory>
    ensures { OnOk result (Writes out.old out.new (line_marks (l.Var name.now value.now))) }
{
    write_keyword(out, Keyword::Var, false)?;
    write_name(out, name.as_str(), true)?;
    write_sign(out, Sign::Assign, true)?;
    write_value(out, value, true)
}

pub(crate) fn write_init(out: &mut Vec<u8>, name: &TextValue, value: &Value) -> Result<(), NoMemory>
    ensures { OnOk result (Writes out.old out.new (line_marks (l.Init name.now value.now))) }
{
    write_at_word(out, AtWord::Init, false)?;
    write_name(out, name.as_str(), true)?;
    write_sign(out, Sign::Assign, true)?;
    write_value(out, value, true)
}

pub(crate) fn write_for(out: &mut Vec<u8>, head: &HeadLine) -> Result<(), NoMemory>
    ensures { OnOk result (Writes out.old out.new (line_marks (for_line head.now).form)) }
{
    write_keyword(out, Keyword::For, false)?;
    write_pattern(out, head.names.as_slice())?;
    write_keyword(out, Keyword::In, true)?;
    write_heads(
        out,
        head.axes.as_slice(),
        head.product,
        head.inner.as_slice(),
    )
}

pub(crate) fn write_let(out: &mut Vec<u8>, names: &[TextValue], expr: &Expr) -> Result<(), NoMemory>
    ensures { OnOk result (Writes out.old out.new (line_marks (l.Let names.now expr.now))) }
{
    write_keyword(out, Keyword::Let, false)?;
    write_pattern(out, names)?;
    write_sign(out, Sign::Assign, true)?;
    write_expr(out, expr, true)
}

pub(crate) fn write_set(out: &mut Vec<u8>, name: &TextValue, expr: &Expr) -> Result<(), NoMemory>
    ensures { OnOk result (Writes out.old out.new (line_marks (l.Set name.now expr.now))) }
{
    write_name(out, name.as_str(), false)?;
    write_sign(out, Sign::Assign, true)?;
    write_expr(out, expr, true)
}

/// An `if` line, or an `elseif` line.
pub(crate) fn write_condition(out: &mut Vec<u8>, test: &Expr, first: bool) -> Result<(), NoMemory>
    ensures { OnOk result (Writes out.old out.new (line_marks (condition first test.now))) }
{
    if first {
        write_keyword(out, Keyword::If, false)?;
        write_expr(out, test, true)
    } else {
        write_keyword(out, Keyword::ElseIf, false)?;
        write_expr(out, test, true)
    }
}

pub(crate) fn write_keep(out: &mut Vec<u8>, name: &TextValue, expr: &Expr) -> Result<(), NoMemory>
    ensures { OnOk result (Writes out.old out.new (line_marks (l.Keep name.now expr.now))) }
{
    write_at_word(out, AtWord::Keep, false)?;
    write_name(out, name.as_str(), true)?;
    write_sign(out, Sign::Assign, true)?;
    write_expr(out, expr, true)
}

pub(crate) fn write_reduce(
    out: &mut Vec<u8>,
    name: &TextValue,
    tower: &TowerExpr,
    start: &Option<Value>,
) -> Result<(), NoMemory>
    ensures { OnOk result (
        Writes out.old out.new (line_marks (l.Reduce name.now tower.now start.now))) }
{
    write_at_word(out, AtWord::Reduce, false)?;
    write_name(out, name.as_str(), true)?;
    write_folded(out, tower, start)
}

pub(crate) fn write_print(out: &mut Vec<u8>, name: &TextValue) -> Result<(), NoMemory>
    ensures { OnOk result (Writes out.old out.new (line_marks (l.Print name.now))) }
{
    write_keyword(out, Keyword::Print, false)?;
    write_name(out, name.as_str(), true)
}
