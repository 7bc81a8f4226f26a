// The steps of the parser's machine in statements (C90 6.6) and expressions (6.3): before them, behind operands and operators,
// behind tests, and behind the parts of a statement, with the nodes of statements that they make. Each step is one of the
// grammar's machine (`Steps`).
#![tactic(auto)]

pub use beginnings::{
    read_block, read_break, read_continue, read_declaration, read_default, read_do_end, read_for,
    read_loop_start, read_loop_step, read_loop_test, read_return, read_statement, read_test,
};
pub use branches::{
    case_body, default_body, do_body, else_branch, for_body, in_statements, switch_body,
    then_branch, while_body,
};
pub use conditions::{in_case, in_evaluation, in_loop_test, in_return, in_start, in_step, in_test};
pub use expressions::{
    behind_assignment, behind_binary, behind_cast, behind_colon, behind_comma, behind_prefix,
    behind_question, behind_sizeof, in_arguments, in_index, in_parentheses,
};
pub use operands::{read_call, read_sizeof, seek_operand};
pub use operators::read_operator;

mod beginnings;
mod branches;
mod conditions;
mod expressions;
mod nodes;
mod operands;
mod operators;
