//! Reads the lines, one after the other.

ghost use Rattle.std.specs.Prelude.{◌≡◌, ◌≢◌, [], Ok, Err, IfOk};
ghost use Rattle.loop_grammar.specs.declared.refusal.SyntaxRefusal.TheVariants as refusal;
ghost use Rattle.loop_grammar.specs.Nesting.{Nests, most_blocks};
ghost use Rattle.loop_nesting.specs.Reading.{step, at_start, in_vars, in_loop, in_prints, init, deeper, branched, ended, put};
ghost use Rattle.loop_nesting.specs.Reading.{entered, whole_loop, closed, next_branch, condition, with_branch, if_of};
ghost use Rattle.loop_nesting.specs.Reading.{run, finish, most_ifs};
ghost use Rattle.loop_nesting.specs.declared.open.Stage.TheVariants as stage;
ghost use Rattle.loop_nesting.specs.Claims.{RefusesNesting};

use crate::open::{LoopFront, OpenIf, OpenLoop, Opened, Preface, Stage};
use crate::stack::Stack;
use loop_data::{Binding, Branch, Expr, HeadLine, Many, PrintLine, Statement, TextValue, Value};
use loop_grammar::{Heads, Line, NumberedLine, ProgramTree, SyntaxRefusal};
use no_memory::NoMemory;
use std::alloc::Global;
use std::collections::VecDeque;

/// The most `if`s that may be open within one another: the loop's block is the first of 16.
const MOST_IFS: usize = 15;

impl Opened {
    /// The condition that opened a block, with its line, where another branch begins on the line given; after `else` that is
    /// bad.
    fn condition(self, line: u32) -> Result<(u32, Expr), SyntaxRefusal>
        ensures { result ≡ condition self line }
    {
        match self {
            Opened::Test {
                line: test_line,
                test,
            } => Ok((test_line, test)),
            Opened::Else { .. } => Err(SyntaxRefusal::BadNesting { line }),
        }
    }
}

/// The branches with one more, whose block is complete.
fn with_branch(
    alloc: Global,
    mut branches: Many<Branch>,
    line: u32,
    test: Expr,
    block: Many<Statement>,
) -> Result<Many<Branch>, NoMemory>
    ensures { IfOk result (λ bs. bs ≡ with_branch branches line test block) }
{
    branches.push(alloc, Branch { line, test, block })?;
    Ok(branches)
}

/// The statement that an `if` is whose last block is complete, and whose `end` stands on the line.
fn whole_if(
    alloc: Global,
    line: u32,
    branches: Many<Branch>,
    opened: Opened,
    block: Many<Statement>,
    end_line: u32,
) -> Result<Statement, NoMemory>
    ensures { IfOk result (λ x. x ≡ if_of line branches opened block end_line) }
{
    match opened {
        Opened::Test {
            line: test_line,
            test,
        } => {
            let branches = with_branch(alloc, branches, test_line, test, block)?;
            let other = Many::new(alloc);
            Ok(Statement::If {
                line,
                branches,
                else_line: 0,
                other,
                end_line,
            })
        }
        Opened::Else { line: else_line } => Ok(Statement::If {
            line,
            branches,
            else_line,
            other: block,
            end_line,
        }),
    }
}

impl OpenIf {
    /// The same with the block complete and another begun by an `elseif` or `else` on the line; after `else` that is bad.
    fn next_branch(
        self,
        alloc: Global,
        block: Many<Statement>,
        opened: Opened,
        line: u32,
    ) -> Result<OpenIf, SyntaxRefusal>
        ensures { result ≢ Err refusal.NoMemory → result ≡ next_branch self block opened line }
    {
        let OpenIf {
            before,
            line: if_line,
            branches,
            opened: last,
        } = self;
        let (test_line, test) = last.condition(line)?;
        let branches = with_branch(alloc, branches, test_line, test, block)?;
        Ok(OpenIf {
            before,
            line: if_line,
            branches,
            opened,
        })
    }

    /// The block around the `if`, up to and with the `if`, whose last block is complete and whose `end` stands on the line.
    fn closed(
        self,
        alloc: Global,
        block: Many<Statement>,
        end_line: u32,
    ) -> Result<Many<Statement>, NoMemory>
        ensures { IfOk result (λ xs. xs ≡ closed self block end_line) }
    {
        let OpenIf {
            mut before,
            line,
            branches,
            opened,
        } = self;
        let whole = whole_if(alloc, line, branches, opened, block, end_line)?;
        before.push(alloc, whole)?;
        Ok(before)
    }
}

impl LoopFront {
    /// The program of the loop with this body that ends on the line, with no `print` line yet.
    fn whole_loop(self, alloc: Global, body: Many<Statement>, end_line: u32) -> ProgramTree
        ensures { result ≡ whole_loop self body end_line }
    {
        let LoopFront {
            preface: Preface { skip_line, vars },
            line,
            heads: Heads {
                names,
                axes,
                product,
                inner,
            },
            scratch,
        } = self;
        ProgramTree {
            skip_line,
            vars,
            head: HeadLine {
                line,
                names,
                axes,
                product,
                inner,
                end_line,
            },
            scratch,
            body,
            prints: Many::new(alloc),
        }
    }
}

impl OpenLoop {
    /// The loop of a `for` line, before its body.
    fn entered(alloc: Global, preface: Preface, line: u32, heads: Heads) -> OpenLoop
        ensures { result ≡ entered preface line heads }
    {
        OpenLoop {
            front: LoopFront {
                preface,
                line,
                heads,
                scratch: Many::new(alloc),
            },
            ifs: Stack::new(alloc),
            block: Many::new(alloc),
        }
    }

    /// An `@init` line, which stands before every other line of the body.
    fn init(
        mut self,
        alloc: Global,
        line: u32,
        name: TextValue,
        value: Value,
    ) -> Result<Stage, SyntaxRefusal>
        ensures { result ≢ Err refusal.NoMemory → result ≡ init self line name value }
    {
        if !self.ifs.is_empty() || !self.block.is_empty() {
            return Err(SyntaxRefusal::BadNesting { line });
        }
        self.front
            .scratch
            .push(alloc, Binding { line, name, value })?;
        Ok(Stage::Loop(self))
    }

    /// A statement of one line.
    fn put(mut self, alloc: Global, statement: Statement) -> Result<Stage, SyntaxRefusal>
        ensures { result ≢ Err refusal.NoMemory → result ≡ put self statement }
    {
        self.block.push(alloc, statement)?;
        Ok(Stage::Loop(self))
    }

    /// An `if` line, which opens a block within the innermost one.
    fn deeper(self, alloc: Global, line: u32, test: Expr) -> Result<Stage, SyntaxRefusal>
        ensures { result ≢ Err refusal.NoMemory → result ≡ deeper most_ifs self line test }
    {
        if self.ifs.len() >= MOST_IFS {
            return Err(SyntaxRefusal::TooDeep { line });
        }
        let OpenLoop {
            front,
            mut ifs,
            block,
        } = self;
        ifs.push(OpenIf {
            before: block,
            line,
            branches: Many::new(alloc),
            opened: Opened::Test { line, test },
        })?;
        Ok(Stage::Loop(OpenLoop {
            front,
            ifs,
            block: Many::new(alloc),
        }))
    }

    /// An `elseif` or `else` line.
    fn branched(self, alloc: Global, line: u32, opened: Opened) -> Result<Stage, SyntaxRefusal>
        ensures { result ≢ Err refusal.NoMemory → result ≡ branched self line opened self.ifs }
    {
        let OpenLoop {
            front,
            mut ifs,
            block,
        } = self;
        let Some(innermost) = ifs.pop() else {
            return Err(SyntaxRefusal::BadNesting { line });
        };
        ifs.push(innermost.next_branch(alloc, block, opened, line)?)?;
        Ok(Stage::Loop(OpenLoop {
            front,
            ifs,
            block: Many::new(alloc),
        }))
    }

    /// An `end` line, which closes the innermost `if`, or else the loop.
    fn ended(self, alloc: Global, end_line: u32) -> Result<Stage, SyntaxRefusal>
        ensures { result ≢ Err refusal.NoMemory → result ≡ ended self end_line self.ifs }
    {
        let OpenLoop {
            front,
            mut ifs,
            block,
        } = self;
        let Some(innermost) = ifs.pop() else {
            return Ok(Stage::Prints(front.whole_loop(alloc, block, end_line)));
        };
        let block = innermost.closed(alloc, block, end_line)?;
        Ok(Stage::Loop(OpenLoop { front, ifs, block }))
    }

    /// One line more within the loop.
    fn in_loop(self, alloc: Global, line: u32, form: Line) -> Result<Stage, SyntaxRefusal>
        ensures { result ≢ Err refusal.NoMemory → result ≡ in_loop most_ifs self line form }
    {
        match form {
            Line::Init { name, value } => self.init(alloc, line, name, value),
            Line::Let { names, expr } => self.put(alloc, Statement::Let { line, names, expr }),
            Line::Set { name, expr } => self.put(alloc, Statement::Set { line, name, expr }),
            Line::Keep { name, expr } => self.put(alloc, Statement::Keep { line, name, expr }),
            Line::Reduce { name, tower, start } => {
                self.put(
                    alloc,
                    Statement::Reduce {
                        line,
                        name,
                        tower,
                        start,
                    },
                )
            }
            Line::Continue => self.put(alloc, Statement::Continue { line }),
            Line::Break => self.put(alloc, Statement::Break { line }),
            Line::If(test) => self.deeper(alloc, line, test),
            Line::ElseIf(test) => self.branched(alloc, line, Opened::Test { line, test }),
            Line::Else => self.branched(alloc, line, Opened::Else { line }),
            Line::End => self.ended(alloc, line),
            Line::SkipFaults | Line::Var { .. } | Line::For(_) | Line::Print(_) => {
                Err(SyntaxRefusal::BadNesting { line })
            }
        }
    }
}

impl Preface {
    /// Nothing but the line `on fault skip`, or nothing at all.
    fn new(alloc: Global, skip_line: Option<u32>) -> Preface
        ensures { result ≡ record { skip_line = skip_line; vars = [] } }
    {
        Preface {
            skip_line,
            vars: Many::new(alloc),
        }
    }

    /// One line more before the loop.
    fn in_vars(mut self, alloc: Global, line: u32, form: Line) -> Result<Stage, SyntaxRefusal>
        ensures { result ≢ Err refusal.NoMemory → result ≡ in_vars self line form }
    {
        match form {
            Line::Var { name, value } => {
                self.vars.push(alloc, Binding { line, name, value })?;
                Ok(Stage::Vars(self))
            }
            Line::For(heads) => Ok(Stage::Loop(OpenLoop::entered(alloc, self, line, heads))),
            _ => Err(SyntaxRefusal::BadNesting { line }),
        }
    }
}

/// The first line.
fn at_start(alloc: Global, line: u32, form: Line) -> Result<Stage, SyntaxRefusal>
    ensures { result ≢ Err refusal.NoMemory → result ≡ at_start line form }
{
    match form {
        Line::SkipFaults => Ok(Stage::Vars(Preface::new(alloc, Some(line)))),
        form => Preface::new(alloc, None).in_vars(alloc, line, form),
    }
}

/// One line more behind the loop.
fn in_prints(
    alloc: Global,
    mut program: ProgramTree,
    line: u32,
    form: Line,
) -> Result<Stage, SyntaxRefusal>
    ensures { result ≢ Err refusal.NoMemory → result ≡ in_prints program line form }
{
    match form {
        Line::Print(name) => {
            program.prints.push(alloc, PrintLine { line, name })?;
            Ok(Stage::Prints(program))
        }
        _ => Err(SyntaxRefusal::BadNesting { line }),
    }
}

impl Stage {
    /// One line more.
    fn step(self, alloc: Global, next: NumberedLine) -> Result<Stage, SyntaxRefusal>
        ensures { result ≢ Err refusal.NoMemory → result ≡ step most_ifs self next }
    {
        let NumberedLine { line, form } = next;
        match self {
            Stage::Start => at_start(alloc, line, form),
            Stage::Vars(preface) => preface.in_vars(alloc, line, form),
            Stage::Loop(open) => open.in_loop(alloc, line, form),
            Stage::Prints(program) => in_prints(alloc, program, line, form),
        }
    }

    /// The program, if the lines may end here; `end` is the line behind the last.
    fn finish(self, end: u32) -> Result<ProgramTree, SyntaxRefusal>
        ensures { result ≡ finish end (Ok self) }
    {
        match self {
            Stage::Prints(program) => Ok(program),
            Stage::Start | Stage::Vars(_) | Stage::Loop(_) => {
                Err(SyntaxRefusal::BadNesting { line: end })
            }
        }
    }
}

/// Reads all lines.
fn run(alloc: Global, mut lines: VecDeque<NumberedLine>) -> Result<Stage, SyntaxRefusal>
    ensures { result ≢ Err refusal.NoMemory → result ≡ run most_ifs stage.Start lines.items }
{
    let mut stage = Stage::Start;
    while let Some(line) = lines.pop_front() {
        stage = stage.step(alloc, line)?;
    }
    Ok(stage)
}

/// The program whose lines these are; they are moved into it, and nothing is copied. `end` is the number of the line behind
/// the last of the text, blank lines being counted. Refused, unless memory runs out (`NoMemory`), with the first line that
/// breaks the nesting: `TooDeep` where it opens a 17th block, the loop's being the first, and could stand there otherwise;
/// `BadNesting` for every other; `BadNesting` of `end` where the lines end too early.
pub fn nest(
    alloc: Global,
    lines: VecDeque<NumberedLine>,
    end: u32,
) -> Result<ProgramTree, SyntaxRefusal>
    ensures program { IfOk result (λ p. Nests most_blocks p lines.items) }
    ensures refusal { RefusesNesting lines.items end result }
{
    run(alloc, lines)?.finish(end)
}
