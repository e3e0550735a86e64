//! What a parser asks of a line besides: how high its trees are, which names it uses, and which names stand in front.
ghost use Rattle.std.specs.Prelude.{All};
ghost use Rattle.abc_expressions.specs.Lexemes.{IsSpelled};

use crate::{Fault, print_names, print_sheet, refuse};
use abc_expressions::{
    Lexeme, is_higher, single_expression, used_names, whole_address, whole_expression,
};
use abc_formula::{
    BoundFront, FormulaFault, bound_in_front, formal_in_front, is_test_higher, whole_test,
};
use abc_num::Names;
use abc_num::limits::MOST_LINE_BYTES;
use abc_show::{Sheet, show_bound};
use abc_tree::{Bound, Expr, Test};

/// How many levels the expression is high. No line spells one that is higher than it has bytes.
fn height(tree: &Expr) -> u32 {
    for most in 0..MOST_LINE_BYTES as u32 {
        if !is_higher(tree, most) {
            return most;
        }
    }
    MOST_LINE_BYTES as u32
}

fn test_height(tree: &Test) -> u32 {
    for most in 0..MOST_LINE_BYTES as u32 {
        if !is_test_higher(tree, most) {
            return most;
        }
    }
    MOST_LINE_BYTES as u32
}

fn print_height(rt: &HostRuntime, found: Result<Expr, FormulaFault>) -> Result<(), Fault> {
    match found {
        Ok(tree) => print!(rt; "{}", height(&tree))?,
        Err(fault) => refuse(rt, fault)?,
    }
    print!(rt; " | ")?;
    Ok(())
}

fn print_test_height(rt: &HostRuntime, found: Result<Test, FormulaFault>) -> Result<(), Fault> {
    match found {
        Ok(tree) => print!(rt; "{}", test_height(&tree))?,
        Err(fault) => refuse(rt, fault)?,
    }
    print!(rt; " |")?;
    Ok(())
}

fn print_bound(rt: &HostRuntime, bound: &Bound) -> Result<(), Fault> {
    let mut sheet = Sheet::new(rt.alloc());
    show_bound(&mut sheet, bound)?;
    print_sheet(rt, &sheet)
}

/// The names in front, and how many tokens stand behind them.
fn print_front(rt: &HostRuntime, found: Result<BoundFront, FormulaFault>) -> Result<(), Fault> {
    print!(rt; " | ")?;
    match found {
        Ok(front) => {
            print_bound(rt, &front.bound)?;
            print!(rt; " {}", front.rest.len())?;
            Ok(())
        }
        Err(fault) => refuse(rt, fault),
    }
}

/// Prints the heights of the expression, the single expression, the address and the test, the names in use, the names up to IN
/// and the formal in front.
pub(crate) fn print_readings(rt: &HostRuntime, own: &Names, tokens: &[Lexeme]) -> Result<(), Fault>
    requires { All IsSpelled tokens.now }
{
    let alloc = rt.alloc();
    print_height(rt, whole_expression(alloc, own, tokens))?;
    print_height(rt, single_expression(alloc, own, tokens))?;
    print_height(rt, whole_address(alloc, own, tokens))?;
    print_test_height(rt, whole_test(alloc, own, tokens))?;
    let mut used = Names::new(alloc);
    used_names(alloc, own, tokens, &mut used)?;
    print_names(rt, &used)?;
    let most = MOST_LINE_BYTES as u32;
    print_front(rt, bound_in_front(alloc, own, tokens, most))?;
    print_front(rt, formal_in_front(alloc, own, tokens, most))?;
    println!(rt; "")?;
    Ok(())
}
