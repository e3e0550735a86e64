//! What the definitions of lines mean together: what a line says is what is computed for its tokens, how it
//! begins and ends, and that what it says is regular.
ghost use Rattle.std.specs.Prelude.{◌≡◌, ◌↔◌, ℕ, List, Option, Some};
ghost use Rattle.abc_tree.specs.declared.commands.ActionNode.{ActionNode};
ghost use Rattle.abc_expressions.specs.declared.lexemes.Lexeme.{Lexeme};
ghost use Rattle.abc_clauses.specs.declared.clause.Clause.{Clause};
ghost use Rattle.abc_clauses.specs.declared.clause.Head.{Head};
ghost use Rattle.abc_clauses.specs.Edges.{IsAlternativeLine, IsCommandLine, IsRefinementLine, IsUnitLine};
ghost use Rattle.abc_clauses.specs.Names.{Kinds};
ghost use Rattle.abc_clauses.specs.Readings.{alternative_of, command_of, heading_of, refinement_of, simple_of, said_alternative, said_command, said_heading, said_refinement};
ghost use Rattle.abc_clauses.specs.RegularClauses.{AreRegularLines};
ghost use Rattle.abc_clauses.specs.Says.{SaysAlternative, SaysCommand, SaysHeading, SaysRefinement, SaysSimple};

use abc_expressions::{
    address_form, computed_address, computed_expression, computed_single, spelled_regular,
};
use abc_formula::{computed_test, spelled_tests};
use abc_print::displays_read_back;
use abc_tokens::{computed_tokens, computed_words, spelled_tokens};

/// The simple command that tokens say is the one that is computed for them.
pub fn computed_simple()
    ensures { (own : List (List ℕ)) (kinds : Kinds) (commands : List (List ℕ)) (text : List ℕ) (line : List Lexeme) (node : ActionNode)
        → SaysSimple own kinds commands text line node ↔ (simple_of own kinds commands text line ≡ Some node) }
{
    computed_expression();
    computed_single();
    computed_address();
    computed_test();
    displays_read_back();
}

/// What the line of a command says is what is computed for its tokens.
pub fn computed_command()
    ensures { (own : List (List ℕ)) (kinds : Kinds) (commands : List (List ℕ)) (text : List ℕ) (line : List Lexeme) (head : Head) (beside : Option ActionNode)
        → SaysCommand own kinds commands text line head beside ↔ (said_command own kinds commands text line ≡ Some (head, beside)) }
{
    computed_expression();
    computed_single();
    computed_address();
    computed_test();
    displays_read_back();
}

/// What an alternative of a SELECT says is what is computed for its tokens.
pub fn computed_alternative()
    ensures { (own : List (List ℕ)) (kinds : Kinds) (commands : List (List ℕ)) (text : List ℕ) (line : List Lexeme) (head : Head) (beside : Option ActionNode)
        → SaysAlternative own kinds commands text line head beside ↔ (said_alternative own kinds commands text line ≡ Some (head, beside)) }
{
    computed_expression();
    computed_single();
    computed_address();
    computed_test();
    displays_read_back();
}

/// What the first line of a unit says is what is computed for its tokens.
pub fn computed_heading()
    ensures { (own : List (List ℕ)) (kinds : Kinds) (commands : List (List ℕ)) (text : List ℕ) (line : List Lexeme) (head : Head) (beside : Option ActionNode)
        → SaysHeading own kinds commands text line head beside ↔ (said_heading own kinds commands text line ≡ Some (head, beside)) }
{
    computed_expression();
    computed_single();
    computed_address();
    computed_test();
    displays_read_back();
}

/// What the heading of a refinement says is what is computed for its tokens.
pub fn computed_refinement()
    ensures { (own : List (List ℕ)) (kinds : Kinds) (commands : List (List ℕ)) (text : List ℕ) (line : List Lexeme) (head : Head) (beside : Option ActionNode)
        → SaysRefinement own kinds commands text line head beside ↔ (said_refinement own kinds commands text line ≡ Some (head, beside)) }
{
    computed_expression();
    computed_single();
    computed_address();
    computed_test();
    displays_read_back();
}

/// A line that says something ends in a colon exactly where the suite of what it says stands below it. The line of a command
/// begins with SELECT exactly where it is a choice. What a line says goes with what the line is in its item.
pub fn edges_of_lines()
    ensures command { (own : List (List ℕ)) (kinds : Kinds) (commands : List (List ℕ)) (text : List ℕ) (n : ℕ) (ts : List Lexeme) (clause : Clause)
        → command_of own kinds commands text n ts ≡ Some clause → IsCommandLine ts clause }
    ensures alternative { (own : List (List ℕ)) (kinds : Kinds) (commands : List (List ℕ)) (text : List ℕ) (n : ℕ) (ts : List Lexeme) (clause : Clause)
        → alternative_of own kinds commands text n ts ≡ Some clause → IsAlternativeLine ts clause }
    ensures heading { (own : List (List ℕ)) (kinds : Kinds) (commands : List (List ℕ)) (text : List ℕ) (n : ℕ) (ts : List Lexeme) (clause : Clause)
        → heading_of own kinds commands text n ts ≡ Some clause → IsUnitLine ts clause }
    ensures refinement { (own : List (List ℕ)) (kinds : Kinds) (commands : List (List ℕ)) (text : List ℕ) (n : ℕ) (ts : List Lexeme) (clause : Clause)
        → refinement_of own kinds commands text n ts ≡ Some clause → IsRefinementLine ts clause }
{
    computed_command();
    computed_alternative();
    computed_heading();
    computed_refinement();
}

/// What a line without a fault of its tokens says is regular, as far as the line tells, where refinements stand in it where they
/// may and no formula of it is too high.
pub fn lines_are_regular()
    ensures { (own : List (List ℕ)) (kinds : Kinds) (commands : List (List ℕ)) (text : List ℕ) → AreRegularLines own kinds commands text }
{
    computed_command();
    computed_alternative();
    computed_heading();
    computed_refinement();
    spelled_regular();
    spelled_tests();
    address_form();
    computed_tokens();
    spelled_tokens();
    computed_words();
}
