ghost use Rattle.std.specs.Prelude.{◌≡◌, IfOk};

use crate::{CopyIn, Expr, Many, TextValue, TowerExpr, Value};
use no_memory::NoMemory;
use std::alloc::Global;

/// A statement of a loop's body. A `line` is the line of the text on which it stands, counted from 1.
#[cycle(statement)]
#[derive(Debug, PartialEq, Eq, Drop)]
pub enum Statement {
    /// `let`, with one name or the names of a tuple's parts.
    Let {
        line: u32,
        names: Many<TextValue>,
        expr: Expr,
    },
    /// An assignment to a name that is bound.
    Set {
        line: u32,
        name: TextValue,
        expr: Expr,
    },
    /// `if` with its `elseif`s, each with its block, and the block of `else`. An `else_line` of 0 says that there is none.
    If {
        line: u32,
        branches: Many<Branch>,
        else_line: u32,
        other: Many<Statement>,
        end_line: u32,
    },
    /// `@keep`
    Keep {
        line: u32,
        name: TextValue,
        expr: Expr,
    },
    /// `@reduce`, with the start value after `from`.
    Reduce {
        line: u32,
        name: TextValue,
        tower: TowerExpr,
        start: Option<Value>,
    },
    Continue {
        line: u32,
    },
    Break {
        line: u32,
    },
}

/// One condition of an `if` with the block under it.
#[cycle(statement)]
#[derive(Debug, PartialEq, Eq, Drop)]
pub struct Branch {
    pub line: u32,
    pub test: Expr,
    pub block: Many<Statement>,
}

/// The value after `from` once more, where there is one. Refused only for want of memory.
pub fn copy_start(alloc: Global, start: &Option<Value>) -> Result<Option<Value>, NoMemory>
    ensures { IfOk result (λ s. s ≡ start.now) }
{
    match start {
        None => Ok(None),
        Some(value) => Ok(Some(value.copy(alloc)?)),
    }
}

/// The same statements once more. Refused only for want of memory.
#[cycle(copies)]
pub fn copy_block(alloc: Global, block: &[Statement]) -> Result<Many<Statement>, NoMemory>
    ensures { IfOk result (λ all. all ≡ block.now) }
{
    let mut copies = Many::new(alloc);
    for statement in block {
        copies.push(alloc, statement.copy(alloc)?)?;
    }
    Ok(copies)
}

impl Branch {
    /// The same once more. Refused only for want of memory.
    #[cycle(copies)]
    pub fn copy(&self, alloc: Global) -> Result<Branch, NoMemory>
        ensures { IfOk result (λ b. b ≡ self.now) }
    {
        let test = self.test.copy(alloc)?;
        let block = copy_block(alloc, self.block.as_slice())?;
        Ok(Branch {
            line: self.line,
            test,
            block,
        })
    }
}

impl Statement {
    /// The same once more. Refused only for want of memory.
    #[cycle(copies)]
    pub fn copy(&self, alloc: Global) -> Result<Statement, NoMemory>
        ensures { IfOk result (λ s. s ≡ self.now) }
    {
        match self {
            Statement::Let { line, names, expr } => {
                let names = names.copy(alloc)?;
                let expr = expr.copy(alloc)?;
                Ok(Statement::Let {
                    line: *line,
                    names,
                    expr,
                })
            }
            Statement::Set { line, name, expr } => {
                let name = name.copy(alloc)?;
                let expr = expr.copy(alloc)?;
                Ok(Statement::Set {
                    line: *line,
                    name,
                    expr,
                })
            }
            Statement::If {
                line,
                branches,
                else_line,
                other,
                end_line,
            } => {
                let mut copies = Many::new(alloc);
                for branch in branches.as_slice() {
                    copies.push(alloc, branch.copy(alloc)?)?;
                }
                let other = copy_block(alloc, other.as_slice())?;
                Ok(Statement::If {
                    line: *line,
                    branches: copies,
                    else_line: *else_line,
                    other,
                    end_line: *end_line,
                })
            }
            Statement::Keep { line, name, expr } => {
                let name = name.copy(alloc)?;
                let expr = expr.copy(alloc)?;
                Ok(Statement::Keep {
                    line: *line,
                    name,
                    expr,
                })
            }
            Statement::Reduce {
                line,
                name,
                tower,
                start,
            } => {
                let name = name.copy(alloc)?;
                let tower = tower.copy(alloc)?;
                let start = copy_start(alloc, start)?;
                Ok(Statement::Reduce {
                    line: *line,
                    name,
                    tower,
                    start,
                })
            }
            Statement::Continue { line } => Ok(Statement::Continue { line: *line }),
            Statement::Break { line } => Ok(Statement::Break { line: *line }),
        }
    }
}

impl CopyIn for Statement {
    fn copy_in(&self, alloc: Global) -> Result<Statement, NoMemory> {
        self.copy(alloc)
    }
}

impl CopyIn for Branch {
    fn copy_in(&self, alloc: Global) -> Result<Branch, NoMemory> {
        self.copy(alloc)
    }
}
