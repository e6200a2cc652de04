//! From a formula to a program. Operators wait until it is known which operands are theirs: an operation is put as soon as an operator comes
//! that binds no tighter, so operands come before operators, and the last operation is the whole formula.

ghost use Rattle.std.specs.Prelude.{◌≡◌, ◌+◌, ◌++◌, ◌∷◌, [], length, IfOk, OnOk};
ghost use Rattle.rv_formula.specs.Formula.{Formula, rank_of, Reads, Gives, IsProgramOf};
ghost use Rattle.rv_formula.specs.Parsing as read;

use crate::error::FormulaError;
use crate::token::{Lexed, Token, next_token};
use rv_base::OutOfMemory;
use rv_expr::{BinOp, ExprOp, MAX_OPERATIONS};
use std::alloc::Global;
use std::collections::VecDeque;

/// What waits for an operand. Operands are operations, by their numbers.
#[derive(Clone, Copy)]
pub(crate) enum Pending {
    Parenthesis { column: usize },
    Operator { op: BinOp, left: u32, column: usize },
    Question { test: u32, column: usize },
    Colon { test: u32, then: u32, column: usize },
}

#[derive(Drop)]
pub(crate) struct Parser {
    ops: Vec<ExprOp>,
    /// The innermost first.
    pending: VecDeque<Pending>,
    /// The operand that was read, where an operator may follow.
    operand: Option<u32>,
}

/// The program of a formula, whose last operation is the formula's value.
pub fn parse(alloc: Global, text: &[u8]) -> Result<Vec<ExprOp>, FormulaError>
    ensures found { IfOk result (λ v. IsProgramOf text.now v.items) }
    ensures formulas { (f : Formula) → Reads text.now f → Gives (λ v. v.items) result f }
    ensures exact { read.IsExact (λ v. v.items) result text.now }
{
    read_all(alloc, text)
}

/// What the tokens of a text are read to.
fn read_all(alloc: Global, text: &[u8]) -> Result<Vec<ExprOp>, FormulaError>
    ensures all { IfOk result (λ v. read.IsAll text.now v.items) }
    ensures exact { read.IsExact (λ v. v.items) result text.now }
{
    let mut parser = Parser {
        ops: Vec::new(alloc),
        pending: VecDeque::new(alloc),
        operand: None,
    };
    let mut at = 0;
    'tokens: while let Some(lexed) = next_token(text, at)? {
        parser.take(lexed)?;
        at = lexed.end;
    }
    parser.finish(text.len() + 1)
}

/// How tightly an operator binds, more with a greater number.
fn rank(op: BinOp) -> u8
    ensures { result ≡ rank_of op }
{
    match op {
        BinOp::Mul | BinOp::DivU | BinOp::RemU => 7,
        BinOp::Add | BinOp::Sub => 6,
        BinOp::Shl | BinOp::Shr | BinOp::Sar => 5,
        BinOp::Ltu => 4,
        BinOp::And => 3,
        BinOp::Xor => 2,
        BinOp::Or => 1,
    }
}

/// Appends an operation, whose token is at a column, and returns its number.
fn put(ops: &mut Vec<ExprOp>, op: ExprOp, column: usize) -> Result<u32, FormulaError>
    ensures { read.Puts result ops.old.items ops.new.items op }
{
    let number = ops.len();
    if number >= MAX_OPERATIONS {
        return Err(FormulaError::TooLong { column });
    }
    match push(ops, op) {
        Ok(()) => Ok(number as u32),
        Err(OutOfMemory) => Err(FormulaError::OutOfMemory),
    }
}

fn push(ops: &mut Vec<ExprOp>, op: ExprOp) -> Result<(), OutOfMemory>
    ensures { OnOk result (ops.new.items ≡ ops.old.items ++ op ∷ []) }
{
    ops.push(op)?;
    Ok(())
}

/// The operation that an operand makes of what waits, where that binds at least so tightly, with its column.
fn ending(pending: Pending, operand: u32, least: u8) -> Option<(ExprOp, usize)>
    ensures { result ≡ read.ending least pending operand }
{
    match pending {
        Pending::Operator { op, left, column } if least <= rank(op) => {
            Some((ExprOp::Bin(op, left, operand), column))
        }
        Pending::Colon { test, then, column } if least == 0 => {
            Some((ExprOp::Pick(test, then, operand), column))
        }
        Pending::Parenthesis { column: _ }
        | Pending::Operator {
            op: _,
            left: _,
            column: _,
        }
        | Pending::Question { test: _, column: _ }
        | Pending::Colon {
            test: _,
            then: _,
            column: _,
        } => None,
    }
}

fn wait(pending: &mut VecDeque<Pending>, what: Pending) -> Result<(), OutOfMemory>
    ensures { OnOk result (pending.new.items ≡ what ∷ pending.old.items) }
{
    pending.push_front(what)?;
    Ok(())
}

/// Ends with an operand what binds at least so tightly, innermost first; returns the operand that this makes. Choices bind by 0.
fn close(
    ops: &mut Vec<ExprOp>,
    pending: &mut VecDeque<Pending>,
    operand: u32,
    least: u8,
) -> Result<u32, FormulaError>
    ensures { read.Closes result ops.new.items pending.new.items (read.close least ops.old.items pending.old.items operand) (length ops.old.items + read.waiting_count pending.old.items) }
{
    let mut value = operand;
    'open: while let Some(innermost) = pending.pop_front() {
        match ending(innermost, value, least) {
            Some((op, column)) => value = put(ops, op, column)?,
            None => {
                wait(pending, innermost)?;
                return Ok(value);
            }
        }
    }
    Ok(value)
}

impl Parser {
    ghost use Rattle.std.specs.Prelude.{ℕ, ◌<◌, ◌+◌};
    ghost use Rattle.rv_formula.specs.Parsing as read;
    ghost use Rattle.rv_formula.specs.Parsers.{parse_of};

    /// Takes the next token.
    fn take(&mut self, lexed: Lexed) -> Result<(), FormulaError>
        requires { lexed.start < lexed.end }
        ensures { read.Takes result (parse_of self.new) (read.take (parse_of self.old) lexed) (read.count (parse_of self.old) + read.weight lexed.token) }
    {
        let column = lexed.start + 1;
        match self.operand {
            None => self.take_operand(lexed.token, column),
            Some(operand) => self.take_operator(operand, lexed.token, column),
        }
    }

    fn take_operand(&mut self, token: Token, column: usize) -> Result<(), FormulaError>
        ensures { read.Takes result (parse_of self.new) (read.take_operand (parse_of self.old) column token) (read.count (parse_of self.old) + read.weight token) }
    {
        match token {
            Token::Number(value) => self.put_leaf(ExprOp::Const(value), column),
            Token::Argument(argument) => self.put_leaf(ExprOp::Arg(argument), column),
            Token::Open => self.wait_for(Pending::Parenthesis { column }),
            Token::Operator(_) | Token::Close | Token::Question | Token::Colon => {
                Err(FormulaError::NoOperand { column })
            }
        }
    }

    fn put_leaf(&mut self, op: ExprOp, column: usize) -> Result<(), FormulaError>
        ensures { read.Takes result (parse_of self.new) (read.leaf (parse_of self.old) op) (read.count (parse_of self.old) + 1) }
    {
        let number = put(&mut self.ops, op, column)?;
        self.operand = Some(number);
        Ok(())
    }

    fn wait_for(&mut self, what: Pending) -> Result<(), FormulaError>
        ensures { (asked : ℕ) → read.Takes result (parse_of self.new) (read.waiting self.old.ops.items what self.old.pending.items) asked }
    {
        match wait(&mut self.pending, what) {
            Ok(()) => {
                self.operand = None;
                Ok(())
            }
            Err(OutOfMemory) => Err(FormulaError::OutOfMemory),
        }
    }

    fn take_operator(
        &mut self,
        operand: u32,
        token: Token,
        column: usize,
    ) -> Result<(), FormulaError>
        ensures { read.Takes result (parse_of self.new) (read.take_operator (parse_of self.old) operand column token) (read.count (parse_of self.old) + read.weight token) }
    {
        match token {
            Token::Operator(op) => {
                let left = close(&mut self.ops, &mut self.pending, operand, rank(op))?;
                self.wait_for(Pending::Operator { op, left, column })
            }
            Token::Question => {
                let test = close(&mut self.ops, &mut self.pending, operand, 1)?;
                self.wait_for(Pending::Question { test, column })
            }
            Token::Colon => {
                let then = close(&mut self.ops, &mut self.pending, operand, 0)?;
                self.take_colon(then, column)
            }
            Token::Close => {
                let value = close(&mut self.ops, &mut self.pending, operand, 0)?;
                self.take_close(value, column)
            }
            Token::Number(_) | Token::Argument(_) | Token::Open => {
                Err(FormulaError::NoOperator { column })
            }
        }
    }

    fn take_colon(&mut self, then: u32, column: usize) -> Result<(), FormulaError>
        ensures { (asked : ℕ) → read.Takes result (parse_of self.new) (read.take_colon column self.old.ops.items then self.old.pending.items) asked }
    {
        match self.pending.pop_front() {
            Some(Pending::Question { test, column: _ }) => {
                self.wait_for(Pending::Colon { test, then, column })
            }
            None
            | Some(Pending::Parenthesis { column: _ })
            | Some(
                Pending::Operator {
                    op: _,
                    left: _,
                    column: _,
                },
            )
            | Some(
                Pending::Colon {
                    test: _,
                    then: _,
                    column: _,
                },
            ) => { Err(FormulaError::NoQuestion { column }) }
        }
    }

    fn take_close(&mut self, value: u32, column: usize) -> Result<(), FormulaError>
        ensures { (asked : ℕ) → read.Takes result (parse_of self.new) (read.take_close column self.old.ops.items value self.old.pending.items) asked }
    {
        match self.pending.pop_front() {
            Some(Pending::Parenthesis { column: _ }) => {
                self.operand = Some(value);
                Ok(())
            }
            Some(Pending::Question { test: _, column }) => Err(FormulaError::NoColon { column }),
            None
            | Some(
                Pending::Operator {
                    op: _,
                    left: _,
                    column: _,
                },
            )
            | Some(
                Pending::Colon {
                    test: _,
                    then: _,
                    column: _,
                },
            ) => { Err(FormulaError::NotOpened { column }) }
        }
    }

    /// Ends the formula, after which is a column.
    fn finish(mut self, column: usize) -> Result<Vec<ExprOp>, FormulaError>
        ensures { read.Finishes (λ v. v.items) result (read.finish (parse_of self) column) (read.count (parse_of self)) }
    {
        let Some(operand) = self.operand else {
            return Err(FormulaError::NoOperand { column });
        };
        close(&mut self.ops, &mut self.pending, operand, 0)?;
        match self.pending.pop_front() {
            Some(Pending::Parenthesis { column }) => Err(FormulaError::NotClosed { column }),
            Some(Pending::Question { test: _, column }) => Err(FormulaError::NoColon { column }),
            None
            | Some(
                Pending::Operator {
                    op: _,
                    left: _,
                    column: _,
                },
            )
            | Some(
                Pending::Colon {
                    test: _,
                    then: _,
                    column: _,
                },
            ) => Ok(self.ops),
        }
    }
}
