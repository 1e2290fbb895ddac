//! Patterns, ranges, axes and heads.

ghost use Rattle.std.specs.Prelude.{◌≡◌, [], ◌∷◌, ◌++◌, map, true, false, OnOk};
ghost use Rattle.loop_layout.specs.Canonical.{step_marks, range_marks, listed, axis_marks, name_marks, pattern_marks};
ghost use Rattle.loop_layout.specs.Canonical.{inner_marks, head_marks};
ghost use Rattle.loop_writer.specs.Writing.{Writes};

use crate::exprs::{write_comma, write_expr};
use crate::marks::{write_keyword, write_name, write_sign, write_text};
use loop_data::{Axis, Expr, Inner, RangeExpr, TextValue};
use loop_tokens::{Keyword, Sign};
use no_memory::NoMemory;

fn write_step(out: &mut Vec<u8>, step: &Option<Expr>) -> Result<(), NoMemory>
    ensures { OnOk result (Writes out.old out.new (step_marks step.now)) }
{
    match step {
        None => Ok(()),
        Some(step) => {
            write_sign(out, Sign::Colon, false)?;
            write_expr(out, step, false)
        }
    }
}

fn write_range(out: &mut Vec<u8>, range: &RangeExpr, apart: bool) -> Result<(), NoMemory>
    ensures { OnOk result (Writes out.old out.new (range_marks range.now apart)) }
{
    write_expr(out, &range.first, apart)?;
    write_step(out, &range.step)?;
    write_sign(out, Sign::Colon, false)?;
    write_expr(out, &range.last, false)
}

#[cycle(axes)]
fn write_axis(out: &mut Vec<u8>, axis: &Axis, apart: bool) -> Result<(), NoMemory>
    ensures { OnOk result (Writes out.old out.new (axis_marks axis.now apart)) }
{
    match axis {
        Axis::Steps(range) => write_range(out, range, apart),
        Axis::Col(name) => {
            write_keyword(out, Keyword::Col, apart)?;
            write_sign(out, Sign::Open, false)?;
            write_text(out, name.as_str(), false)?;
            write_sign(out, Sign::Close, false)
        }
        Axis::Zip(parts) => {
            write_keyword(out, Keyword::Zip, apart)?;
            write_sign(out, Sign::Open, false)?;
            write_axes(out, parts.as_slice(), false)?;
            write_sign(out, Sign::Close, false)
        }
    }
}

#[cycle(axes)]
fn write_axes(out: &mut Vec<u8>, axes: &[Axis], apart: bool) -> Result<(), NoMemory>
    ensures { OnOk result (Writes out.old out.new (listed (map axis_marks axes.now) apart)) }
{
    for (i, axis) in axes.iter().enumerate() {
        write_comma(out, i > 0)?;
        write_axis(out, axis, apart || i > 0)?;
    }
    Ok(())
}

/// The first head: an axis, or a product of several.
fn write_head(out: &mut Vec<u8>, axes: &[Axis], product: bool) -> Result<(), NoMemory>
    ensures { OnOk result (Writes out.old out.new (head_marks axes.now product true)) }
{
    if product {
        write_keyword(out, Keyword::Product, true)?;
        write_sign(out, Sign::Open, false)?;
        write_axes(out, axes, false)?;
        write_sign(out, Sign::Close, false)
    } else {
        write_axes(out, axes, true)
    }
}

fn write_names(out: &mut Vec<u8>, names: &[TextValue]) -> Result<(), NoMemory>
    ensures { OnOk result (Writes out.old out.new (listed (map name_marks names.now) false)) }
{
    for (i, name) in names.iter().enumerate() {
        write_comma(out, i > 0)?;
        write_name(out, name.as_str(), i > 0)?;
    }
    Ok(())
}

/// One name, or several in parentheses.
pub(crate) fn write_pattern(out: &mut Vec<u8>, names: &[TextValue]) -> Result<(), NoMemory>
    ensures { OnOk result (Writes out.old out.new (pattern_marks names.now true)) }
{
    match names {
        [] => Ok(()),
        [name] => write_name(out, name.as_str(), true),
        _ => {
            write_sign(out, Sign::Open, true)?;
            write_names(out, names)?;
            write_sign(out, Sign::Close, false)
        }
    }
}

fn write_inner(out: &mut Vec<u8>, head: &Inner) -> Result<(), NoMemory>
    ensures { OnOk result (Writes out.old out.new (inner_marks (head.now ∷ []))) }
{
    write_sign(out, Sign::Comma, false)?;
    write_name(out, head.name.as_str(), true)?;
    write_keyword(out, Keyword::In, true)?;
    write_range(out, &head.range, true)
}

fn write_inners(out: &mut Vec<u8>, heads: &[Inner]) -> Result<(), NoMemory>
    ensures { OnOk result (Writes out.old out.new (inner_marks heads.now)) }
{
    for head in heads {
        write_inner(out, head)?;
    }
    Ok(())
}

/// All that a `for` line goes over.
pub(crate) fn write_heads(
    out: &mut Vec<u8>,
    axes: &[Axis],
    product: bool,
    inner: &[Inner],
) -> Result<(), NoMemory>
    ensures { OnOk result (
        Writes out.old out.new (head_marks axes.now product true ++ inner_marks inner.now)) }
{
    write_head(out, axes, product)?;
    write_inners(out, inner)
}
