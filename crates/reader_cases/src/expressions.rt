// Expressions, and what they say of an entry.
use entry_model::{Entry, Text};
use expr_lang::Expr;
use std::alloc::{AllocError, Global};

/// What an expression gives for an entry, or the fault of reading or evaluating it.
pub fn answer(alloc: Global, text: &str, entry: &Entry) -> Result<String, AllocError> {
    match Expr::read(alloc, text) {
        Ok(expr) => evaluated(alloc, &expr, entry),
        Err(fault) => format!(in alloc; "{fault}"),
    }
}

/// What a condition gives for an entry with this body.
pub fn of_body(alloc: Global, condition: &Option<Expr>, body: &str) -> Result<String, AllocError> {
    let entry = Entry::new(alloc, Text::from_str(alloc, body)?)?;
    match condition {
        Some(condition) => evaluated(alloc, condition, &entry),
        None => String::from_str(alloc, "no condition"),
    }
}

fn evaluated(alloc: Global, expr: &Expr, entry: &Entry) -> Result<String, AllocError> {
    match expr.eval(alloc, entry) {
        Ok(answer) => format!(in alloc; "{answer:?}"),
        Err(fault) => format!(in alloc; "{fault}"),
    }
}
