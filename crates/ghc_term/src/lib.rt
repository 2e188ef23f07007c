//! Terms of Flat GHC: names, terms, expressions, goals, the store of bindings, refusals and their texts.
#![tactic(auto)]

mod appending;
mod arguments;
mod bindings;
mod comparison;
mod equality;
mod expr;
mod expr_view;
mod fault;
mod gathering;
mod goal;
mod goal_name;
mod goal_view;
mod ground;
mod kept;
mod limit;
mod measure;
mod name;
mod operator;
mod overlay;
mod printing;
mod store;
mod table;
mod term;
mod var_name;
mod view;

pub use appending::{end_of, or_cut_back, push_number, push_variable};
pub use bindings::Bindings;
pub use comparison::Comparison;
pub use expr::Expr;
pub use expr_view::ExprView;
pub use fault::Fault;
pub use goal::Goal;
pub use goal_name::GoalName;
pub use goal_view::GoalView;
pub use ground::Ground;
pub use limit::{Limit, TEXT_LIMIT};
pub use name::Name;
pub use operator::Operator;
pub use overlay::{Chain, Overlay};
pub use printing::{
    PRINT_LIMIT, print, print_goal, print_goal_written, print_written, push_goal_written,
    push_written,
};
pub use store::Store;
pub use table::goal_map::GoalMap;
pub use table::name_hasher::{NameMap, NameSet};
pub use table::variable_map::VariableMap;
pub use table::variables::Variables;
pub use term::Term;
pub use var_name::{NO_STEP, VarName};
pub use view::TermView;
